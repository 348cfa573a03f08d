// `write_list`: the list of a sequence of domains with their entry constraints and EXRS.
ghost use Rattle.std.specs.Prelude.{◌≡◌, ◌+◌, ◌≤◌, ◌<◌, length};
ghost use Rattle.model.specs.Lists.{over};
ghost use Rattle.model.specs.Profile.{domains};
ghost use Rattle.model.specs.WrittenList.{stops, written};
ghost use Rattle.list_writer.specs.Writing.{Fitting, WrittenBy};

use crate::Lent;
use crate::parts::put_stop;
use crate::sizes::{list_size, pin_of, same_system};
use crate::writable::unwritable;
use model::{Reason, Refusal};
use profile_check::verdict_on;
use profile_records::domain::domain_at;
use refusal::refuse_if;

// The whole list over the start of a buffer that has room for it.
fn put_all(profile: &[u8], lent: Lent, out: &mut [u8])
    requires { Fitting profile.now lent.indexes.now lent.marks.now lent.nodes.now lent.counts.now lent.exrs.now × (length (written (domains profile.now) (stops lent.indexes.now lent.marks.now lent.nodes.now lent.counts.now lent.exrs.now)) ≤ length out.old) }
    ensures { out.new ≡ over (written (domains profile.now) (stops lent.entry.indexes.now lent.entry.marks.now lent.entry.nodes.now lent.entry.counts.now lent.entry.exrs.now)) out.old }
{
    let mut at = 0;
    let mut before = None;
    let mut from = 0;
    for i in 0..lent.indexes.len() {
        let d = domain_at(profile, lent.indexes[i] as usize);
        let again = same_system(before, d.asn);
        let to = from + lent.counts[i] as usize;
        at = put_stop(
            out,
            at,
            pin_of(lent.marks[i], lent.nodes[i]),
            &lent.exrs[from..to],
            again,
            d,
        );
        before = Some(d.asn);
        from = to;
    }
}

// The list of a sequence of domains with their entry constraints and EXRS, for every input: the profile's checks, the sequence's, the room's, and then the bytes;
// the answer is how many. Of `exrs` each domain has as many bytes as its count says, one after the other.
pub fn write_list(
    profile: &[u8],
    domains: &[u16],
    pinned: &[u8],
    pins: &[u32],
    counts: &[u32],
    exrs: &[u8],
    out: &mut [u8],
) -> Result<u32, Refusal>
    ensures { WrittenBy profile.now domains.now pinned.now pins.now counts.now exrs.now out.old out.new result }
{
    verdict_on(profile)?;
    let lent = Lent {
        indexes: domains,
        marks: pinned,
        nodes: pins,
        counts,
        exrs,
    };
    let wrong = unwritable(profile, lent);
    refuse_if(wrong, Reason::Unwritable, 0)?;
    let n = list_size(profile, lent);
    refuse_if(out.len() < n, Reason::LittleRoom, 0)?;
    put_all(profile, lent, out);
    Ok(n as u32)
}
