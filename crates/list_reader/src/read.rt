// `read_include`: the checks in document 01's order, the meaning of the list, and its sequence in the lent buffers.
ghost use Rattle.std.specs.Prelude.{◌≡◌, List, ℕ, ◌≤◌, length};
ghost use Rattle.model.specs.Sequence.{good};
ghost use Rattle.model.specs.Calls.{read_into};
ghost use Rattle.list_include.specs.Reading.{state_stops, SoundState, Placed};
ghost use Rattle.buffers.specs.Capacity.{least3, least4};
ghost use Rattle.list_reader.specs.ReadInclude.{read_verdict, SequenceIn, ReadIn, ReadIs};

use crate::exrs::{all_size, copy_exrs};
use buffers::lesser;
use list_form::form;
use list_include::read_list;
use list_include::state::State;
use model::{DomainIndex, ListKind, NodeAddress, ReadCounts, Reason, Refusal, Verdict};
use profile_check::verdict_on;
use profile_records::header::domain_count;
use refusal::refuse_if;

// The domains of a sequence and their entry constraints at the start of the lent buffers.
fn copy_sequence(st: State, domains: &mut [u16], pinned: &mut [u8], pins: &mut [u32])
    requires { SoundState st × (st.count ≤ least3 domains.old pinned.old pins.old) }
    ensures { (list : List ℕ) → SequenceIn (state_stops list st) domains.old pinned.old pins.old domains.new pinned.new pins.new }
{
    for i in 0..st.count {
        let stop = st.stops[i];
        domains[i] = stop.domain.0;
        pinned[i] = stop.pin.is_some() as u8;
        pins[i] = stop.pin.unwrap_or(NodeAddress(0)).0;
    }
}

// The checks before the meaning: the profile, 20, 22 and the form of the list.
fn read_verdict(profile: &[u8], ingress: DomainIndex, list: &[u8]) -> Verdict
    ensures { result ≡ read_verdict profile.now ingress.0 list.now }
{
    verdict_on(profile)?;
    refuse_if(
        domain_count(profile) <= ingress.0,
        Reason::UnknownIngress,
        0,
    )?;
    refuse_if(1024 < list.len(), Reason::LongList, 0)?;
    form(ListKind::Include, list)
}

// The sequence of a state in the lent buffers, where they have capacity for all of it.
fn put_sequence(
    list: &[u8],
    st: State,
    domains: &mut [u16],
    pinned: &mut [u8],
    pins: &mut [u32],
    counts: &mut [u32],
    exrs: &mut [u8],
) -> Result<ReadCounts, Refusal>
    requires { SoundState st × Placed list.now st × (length list.now ≤ 1024) }
    ensures { ReadIn (read_into (good (state_stops list.now st)) (least4 domains.old pinned.old pins.old counts.old) (length exrs.old)) domains.old pinned.old pins.old counts.old exrs.old result domains.new pinned.new pins.new counts.new exrs.new }
{
    let n = st.count;
    let room = lesser(
        lesser(domains.len(), pinned.len()),
        lesser(pins.len(), counts.len()),
    );
    refuse_if(room < n, Reason::LittleRoom, 0)?;
    let size = all_size(list, st);
    refuse_if(exrs.len() < size, Reason::LittleRoom, 0)?;
    copy_sequence(st, domains, pinned, pins);
    copy_exrs(list, st, counts, exrs);
    Ok(ReadCounts {
        count: n as u32,
        exrs: size as u32,
    })
}

// The sequence of domains, entry constraints and EXRS that an include list asks for. On a refusal the lent buffers keep what they held.
pub fn read_include(
    profile: &[u8],
    ingress: DomainIndex,
    list: &[u8],
    domains: &mut [u16],
    pinned: &mut [u8],
    pins: &mut [u32],
    counts: &mut [u32],
    exrs: &mut [u8],
) -> Result<ReadCounts, Refusal>
    ensures { ReadIs profile.now ingress.0 list.now domains.old pinned.old pins.old counts.old exrs.old result domains.new pinned.new pins.new counts.new exrs.new }
{
    read_verdict(profile, ingress, list)?;
    let st = read_list(profile, ingress, list)?;
    put_sequence(list, st, domains, pinned, pins, counts, exrs)
}
