// The meaning of an include list of right form on an accepted profile: its sequence of domains with their entry constraints and where their EXRS stand, or its
// refusal (28 to 32, 42).
#![tactic(auto)]

ghost use Rattle.std.specs.Prelude.{◌≡◌, List, ℕ, ◌≤◌, ◌<◌, length};
ghost use Rattle.model.specs.Verdict.{Pass};
ghost use Rattle.model.specs.declared.ListKind.TheVariants.{Include};
ghost use Rattle.model.specs.Profile.{domain_count};
ghost use Rattle.model.specs.Subobject.{form_verdict};
ghost use Rattle.model.specs.Sequence.{read_system, read_one, area_next, start_in, finish, meaning};
ghost use Rattle.model.specs.Request.{reading_input};
ghost use Rattle.laws.specs.Left.{subobjects_left};
ghost use Rattle.profile_records.specs.Domains.{WholeDomains, ShortAreas};
ghost use Rattle.list_include.specs.Reading.{subobject_of, state_of, state_waits, SoundState, ItemHere, Standing, StateIs, stepped, ReadStepIs, MeaningIs};

use crate::named_domains::{of_area, of_system};
use crate::state::{State, name_found, wait_exrs, wait_for, with_asn};
use list_subobject::item::{Item, Named};
use list_subobject::types::SubobjectType;
use list_subobject::walk::subobject_at;
use model::{DomainIndex, NamedStop, Refusal, Verdict};
use wire::u32_at;

pub mod named_domains;
pub mod state;

// An AS becomes current; unless an area follows at once it names its only domain.
fn read_system(profile: &[u8], st: &mut State, at: usize, asn: u32, follows: bool) -> Verdict
    requires { SoundState st.old × (at ≤ 1024) × WholeDomains profile.now }
    ensures { (list : List ℕ) → Standing list at st.old → ReadStepIs list at (stepped result st.new) (read_system (reading_input profile.now) at (state_of list at st.old) asn follows) }
{
    with_asn(st, asn);
    if follows {
        return Ok(());
    }
    let found = of_system(profile, asn);
    name_found(st, at, found)
}

// One subobject.
fn read_item(profile: &[u8], list: &[u8], st: &mut State, item: Item, follows: bool) -> Verdict
    requires sound_state { SoundState st.old × (item.offset ≤ 1024) × WholeDomains profile.now × ShortAreas profile.now }
    requires item_here { ItemHere list.now item × Standing list.now item.offset st.old }
    ensures { ReadStepIs list.now item.next (stepped result st.new) (read_one (reading_input profile.now) (state_of list.now item.offset st.old) (subobject_of list.now item) follows) }
{
    let at = item.offset;
    let named = item.named;
    match named {
        Named::Prefix { address, bits: _ } => wait_for(st, at, address),
        Named::System { asn } => read_system(profile, st, at, asn, follows),
        Named::Area { kind, start, count } => {
            let found = of_area(profile, st.asn, list, kind, start, count);
            name_found(st, at, found)
        }
        Named::Exrs { start: _, count: _ } => {
            wait_exrs(st, at);
            Ok(())
        }
    }
}

// An area subobject stands at this offset.
fn area_at(list: &[u8], at: usize) -> bool
    ensures { result ≡ area_next (subobjects_left list.now at) }
{
    if list.len() <= at {
        return false;
    }
    let t = list[at] % 128;
    t == SubobjectType::OspfArea as u8 || t == SubobjectType::IsisArea as u8
}

// The reading starts in the ingress domain, with its AS as current.
fn start(profile: &[u8], ingress: DomainIndex) -> State
    requires { WholeDomains profile.now × (ingress.0 < domain_count profile.now) }
    ensures { (list : List ℕ) → StateIs list 0 result (start_in (reading_input profile.now) ingress.0) }
{
    let first = NamedStop {
        domain: ingress,
        pin: None,
        named: 0,
    };
    State {
        asn: u32_at(profile, 12 + 20 * ingress.0 as usize),
        count: 1,
        stops: [first; 16],
        node: None,
        waiting: None,
    }
}

// What is left waiting at the end is told: an entry constraint by 32, an EXRS by 42, of several the first.
fn finished(st: State) -> Result<State, Refusal>
    requires { SoundState st }
    ensures { (list : List ℕ) (at : ℕ) → Standing list at st → MeaningIs list result (finish (state_of list at st) (state_waits list at st)) }
{
    match st.waiting {
        None => Ok(st),
        Some(left) => Err(left),
    }
}

// The whole list, subobject by subobject.
pub fn read_list(profile: &[u8], ingress: DomainIndex, list: &[u8]) -> Result<State, Refusal>
    requires whole_domains { WholeDomains profile.now × ShortAreas profile.now × (ingress.0 < domain_count profile.now) }
    requires list_len_bound { (length list.now ≤ 1024) × (form_verdict Include list.now ≡ Pass) }
    ensures { MeaningIs list.now result (meaning (reading_input profile.now) ingress.0 list.now) }
{
    let mut st = start(profile, ingress);
    let mut at: usize = 0;
    while at < list.len() {
        let item = subobject_at(list, at);
        let follows = area_at(list, item.next);
        read_item(profile, list, &mut st, item, follows)?;
        at = item.next;
    }
    finished(st)
}
