// How far the reading of an include list is: the sequence so far and what waits. One step for each thing that a subobject can say.
ghost use Rattle.std.specs.Prelude.{◌≡◌, List, [], ◌∷◌, ℕ, ◌≤◌, ◌<◌, eqb, Err};
ghost use Rattle.std.specs.List.{list_any};
ghost use Rattle.model.specs.Lists.{among};
ghost use Rattle.model.specs.Verdict.{number_of};
ghost use Rattle.model.specs.Sequence.{domains_of, added, enter, wait, waits_too, waiting_for, entry, exclusions, good, with_system, pin_of};
ghost use Rattle.list_include.specs.Reading.{left_or, stepped, with_waiting, state_stops, state_waits, state_of, SoundState, Standing, StateIs, Past, ReadStepIs, name_found};

use crate::named_domains::NamedDomain;
use model::{DomainIndex, NamedStop, NodeAddress, Reason, Refusal, Verdict};

// The current AS; the sequence so far, `count` domains (the EXRS of a domain are those between the subobject that named the one before and its own); the node of an
// entry constraint that waits for the next new domain; and what is told if something is left waiting: the first of it.
#[derive(Clone, Copy)]
pub struct State {
    pub asn: u32,
    pub count: usize,
    pub stops: [NamedStop; 16],
    pub node: Option<NodeAddress>,
    pub waiting: Option<Refusal>,
}

// The refusal for this reason, at an offset of the list.
fn refused_at(reason: Reason, at: usize) -> Refusal
    requires { at ≤ 1024 }
    ensures { result ≡ record { number = number_of reason; place = at } }
{
    Refusal::new(reason, at as u32)
}

// A new domain at the end of the sequence, named at this offset, with what waits for it.
fn add(st: &mut State, at: usize, d: DomainIndex)
    requires { SoundState st.old × (st.old.count < 16) × (at ≤ 1024) }
    ensures { (list : List ℕ) → Standing list at st.old → StateIs list at st.new (added (state_of list at st.old) d.0) }
{
    let count = st.count;
    st.stops[count] = NamedStop {
        domain: d,
        pin: st.node,
        named: at as u16,
    };
    st.count = count + 1;
    st.node = None;
    st.waiting = None;
}

// One of the stops is in this domain.
fn any_in(stops: &[NamedStop], d: DomainIndex) -> bool
    ensures { result ≡ list_any (λ stop. eqb d.0 stop.domain.0) stops.now }
{
    stops.iter().any(|stop| d == stop.domain)
}

// The sequence holds this domain.
fn holds(st: &State, d: DomainIndex) -> bool
    requires { SoundState st.now }
    ensures { (list : List ℕ) → result ≡ among d.0 (domains_of (state_stops list st.now)) }
{
    any_in(&st.stops[..st.count], d)
}

// Naming a domain: the domain one is in adds nothing, one that comes back is 30, else a seventeenth is 31.
fn enter_domain(st: &mut State, at: usize, d: DomainIndex) -> Verdict
    requires { SoundState st.old × (at ≤ 1024) }
    ensures means { (list : List ℕ) → Standing list at st.old → ReadStepIs list at (stepped result st.new) (enter at (state_of list at st.old) d.0) }
    ensures kept { (x : Refusal) → result ≡ Err x → st.new ≡ st.old }
{
    let count = st.count;
    if d == st.stops[count - 1].domain {
        return Ok(());
    }
    if holds(st, d) {
        return Err(refused_at(Reason::DomainAgain, at));
    }
    if 16 <= count {
        return Err(refused_at(Reason::TooManyDomains, at));
    }
    add(st, at, d);
    Ok(())
}

// Naming what was found: nothing is 28, several are 29.
pub fn name_found(st: &mut State, at: usize, found: NamedDomain) -> Verdict
    requires { SoundState st.old × (at ≤ 1024) }
    ensures means { (list : List ℕ) → Standing list at st.old → ReadStepIs list at (stepped result st.new) (name_found at (state_of list at st.old) found) }
    ensures kept { (x : Refusal) → result ≡ Err x → st.new ≡ st.old }
{
    match found {
        NamedDomain::Nothing => Err(refused_at(Reason::UnknownDomain, at)),
        NamedDomain::One { domain } => enter_domain(st, at, domain),
        NamedDomain::Several => Err(refused_at(Reason::SeveralDomains, at)),
    }
}

// What is told of what waits with one more behind it: the first stays.
fn first_left(waiting: Option<Refusal>, reason: Reason, at: usize) -> Option<Refusal>
    requires { at ≤ 1024 }
    ensures { result ≡ left_or waiting (number_of reason) at }
{
    waiting.or(Some(refused_at(reason, at)))
}

// The same state with this waiting.
fn waits_too(st: &mut State, node: Option<NodeAddress>, waiting: Option<Refusal>)
    ensures { st.new ≡ with_waiting st.old node waiting }
{
    st.node = node;
    st.waiting = waiting;
}

// A node waits for the next new domain; a second while one waits is 32.
pub fn wait_for(st: &mut State, at: usize, node: NodeAddress) -> Verdict
    requires { SoundState st.old × (at ≤ 1024) }
    ensures means { (list : List ℕ) (next : ℕ) → Standing list at st.old → Past list at next (waiting_for at (entry node.0) ∷ []) st.old
        → ReadStepIs list next (stepped result st.new) (wait at (state_of list at st.old) node.0 (pin_of (state_waits list at st.old))) }
    ensures kept { (x : Refusal) → result ≡ Err x → st.new ≡ st.old }
{
    if st.node.is_some() {
        return Err(refused_at(Reason::EntryConstraintLeft, at));
    }
    let first = first_left(st.waiting, Reason::EntryConstraintLeft, at);
    waits_too(st, Some(node), first);
    Ok(())
}

// An EXRS waits, beside what waits already.
pub fn wait_exrs(st: &mut State, at: usize)
    requires { SoundState st.old × (at ≤ 1024) }
    ensures { (list bytes : List ℕ) (next : ℕ) → Standing list at st.old → Past list at next (waiting_for at (exclusions bytes) ∷ []) st.old
        → StateIs list next st.new (waits_too at (state_of list at st.old) (exclusions bytes)) }
{
    let node = st.node;
    let first = first_left(st.waiting, Reason::ExrsLeft, at);
    waits_too(st, node, first);
}

// Another AS becomes current.
pub fn with_asn(st: &mut State, asn: u32)
    requires { SoundState st.old }
    ensures { SoundState st.new × ((list : List ℕ) (at : ℕ) → Standing list at st.old → StateIs list at st.new (with_system (state_of list at st.old) asn)) }
{
    st.asn = asn;
}
