// How many bytes are written for a domain of a sequence, part by part, and for a whole sequence.
ghost use Rattle.std.specs.Prelude.{◌≡◌, ℕ, ◌+◌, ◌≤◌, ◌<◌, length};
ghost use Rattle.model.specs.Profile.{domains};
ghost use Rattle.model.specs.WrittenList.{written_pin, pin_if, system_if, written_area, stops, written};
ghost use Rattle.laws.specs.Stops.{pin_as};
ghost use Rattle.list_writer.specs.Writing.{AreaRight, system_again, named_size, Fitting};

use crate::Lent;
use list_form::rounded_up;
use model::{Domain, NodeAddress};
use profile_records::domain::domain_at;

// The entry constraint that a mark and a node of the lent lists stand for.
pub fn pin_of(mark: u8, node: u32) -> Option<NodeAddress>
    ensures { pin_as result ≡ pin_if mark node }
{
    if mark == 0 {
        None
    } else {
        Some(NodeAddress(node))
    }
}

// There is a domain before, and its AS is the same.
pub fn same_system(before: Option<u32>, asn: u32) -> bool
    ensures { result ≡ system_again before asn }
{
    before == Some(asn)
}

// An entry constraint, whatever its node.
fn pin_size(pin: Option<NodeAddress>) -> usize
    ensures { (result ≤ 8) × (result ≡ length (written_pin (pin_as pin))) }
{
    match pin {
        None => 0,
        Some(_) => 8,
    }
}

// An AS, unless it is the one before.
fn system_size(again: bool) -> usize
    ensures { (result ≤ 8) × ((asn : ℕ) → result ≡ length (system_if again asn)) }
{
    if again { 0 } else { 8 }
}

// An area with its padding.
fn area_size(d: Domain) -> usize
    requires { AreaRight d }
    ensures { (result ≤ 20) × (result ≡ length (written_area d.kind d)) }
{
    if d.kind == 0 {
        0
    } else {
        4 + rounded_up(d.length) as usize
    }
}

// All of a domain but its EXRS.
fn named_size(pin: Option<NodeAddress>, again: bool, d: Domain) -> usize
    requires { AreaRight d }
    ensures { (result ≤ 36) × (result ≡ named_size (pin_as pin) again d) }
{
    pin_size(pin) + (system_size(again) + area_size(d))
}

// The whole list of a sequence. Its nodes and the EXRS' bytes don't change its size; the contract names what is written by them.
pub fn list_size(profile: &[u8], lent: Lent) -> usize
    requires { Fitting profile.now lent.indexes.now lent.marks.now lent.nodes.now lent.counts.now lent.exrs.now × (length lent.exrs.now ≤ 1024) }
    ensures { (result ≤ 1600) × (result ≡ length (written (domains profile.now) (stops lent.entry.indexes.now lent.entry.marks.now lent.entry.nodes.now lent.entry.counts.now lent.entry.exrs.now))) }
{
    let mut size = 0;
    let mut before = None;
    for i in 0..lent.indexes.len() {
        let d = domain_at(profile, lent.indexes[i] as usize);
        let again = same_system(before, d.asn);
        size += named_size(pin_of(lent.marks[i], lent.nodes[i]), again, d);
        size += lent.counts[i] as usize;
        before = Some(d.asn);
    }
    size
}
