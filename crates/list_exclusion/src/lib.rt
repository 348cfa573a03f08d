// What an exclude list of right form takes away in a round: domains and nodes; and whether an exclusion of it is only desired (its X bit is set).
#![tactic(auto)]

ghost use Rattle.std.specs.Prelude.{◌≡◌, ◌&&◌, List, ℕ, ◌-◌, ◌≤◌};
ghost use Rattle.model.specs.Verdict.{Pass};
ghost use Rattle.model.specs.declared.ListKind.TheVariants.{Exclude};
ghost use Rattle.model.specs.Subobject.{form_verdict, subobjects};
ghost use Rattle.model.specs.Exclusion.{counts as counts_in, in_force, some_desired, in_prefix, takes_domain, takes_node, excluded_domain, excluded_node};
ghost use Rattle.list_subobject.specs.Items.{named_of, BytesInside};
ghost use Rattle.list_exclusion.specs.Tests.{Test, IsTest, some_passes};

use list_subobject::item::{Item, Named};
use list_subobject::walk::{moved_past, subobject_here, walk_from};
use model::{Domain, NodeAddress, Round};
use profile_records::area::has_area;

pub mod exrs;
pub mod place;

// How many of an address's 32 bits stand after a prefix of this length.
fn bits_after(bits: u8) -> u32
    ensures { (result ≡ 32 - bits) × (result ≤ 32) }
{
    32u32.saturating_sub(bits as u32)
}

// The node's bits before the prefix length are those of the address. A whole address, the common case, needs no shift.
fn in_prefix(address: NodeAddress, bits: u8, node: NodeAddress) -> bool
    ensures { result ≡ in_prefix address.0 bits node.0 }
{
    if bits == 32 {
        return address == node;
    }
    let after = bits_after(bits);
    (node.0 as u64) >> after == (address.0 as u64) >> after
}

// What is named takes the node away: an area does not, so the list doesn't matter.
fn takes_node(named: Named, node: NodeAddress) -> bool
    ensures { (s : List ℕ) → result ≡ takes_node node.0 (named_of s named) }
{
    match named {
        Named::Prefix { address, bits } => in_prefix(address, bits, node),
        _ => false,
    }
}

// What is named takes the domain away.
fn takes_domain(list: &[u8], named: Named, d: Domain) -> bool
    requires { (BytesInside list.now named) × (d.length ≤ 13) }
    ensures { result ≡ takes_domain d (named_of list.now named) }
{
    match named {
        Named::System { asn } => d.asn == asn,
        Named::Area { kind, start, count } => has_area(d, list, kind, start, count),
        _ => false,
    }
}

// An exclusion with this X bit counts in the round.
fn counts(round: Round, top: bool) -> bool
    ensures { result ≡ counts_in round top }
{
    match round {
        Round::First => true,
        Round::Second => !top,
    }
}

// It counts, and what it names takes the domain away.
fn bars_domain(list: &[u8], round: Round, top: bool, named: Named, d: Domain) -> bool
    requires { (BytesInside list.now named) × (d.length ≤ 13) }
    ensures { result ≡ counts_in round top && takes_domain d (named_of list.now named) }
{
    counts(round, top) && takes_domain(list, named, d)
}

// It counts, and what it names takes the node away. Few exclusions hit a node, so whether one counts is asked last.
fn bars_node(round: Round, top: bool, named: Named, node: NodeAddress) -> bool
    ensures { (s : List ℕ) → result ≡ counts_in round top && takes_node node.0 (named_of s named) }
{
    takes_node(named, node) && counts(round, top)
}

// Some subobject of the exclude list passes the test.
fn some_passes<F: Fn(Item) -> bool>(list: &[u8], test: F) -> bool
    requires right { form_verdict Exclude list.now ≡ Pass }
    requires callable { (item : Item) → BytesInside list.now item.named → F.pre test item }
    ensures { (q : Test) → IsTest (F.post test) list.now q → result ≡ some_passes q (subobjects list.now) }
{
    let mut walk = walk_from(list, 0);
    while walk.at < list.len() {
        if test(subobject_here(walk)) {
            return true;
        }
        walk = moved_past(walk);
    }
    false
}

// The exclude list takes the domain away in the round.
pub fn excludes_domain(list: &[u8], round: Round, d: Domain) -> bool
    requires { (form_verdict Exclude list.now ≡ Pass) × (d.length ≤ 13) }
    ensures { result ≡ excluded_domain (in_force round (subobjects list.now)) d }
{
    some_passes(
        list,
        |item| bars_domain(list, round, item.top, item.named, d),
    )
}

// The exclude list takes the node away in the round.
pub fn excludes_node(list: &[u8], round: Round, node: NodeAddress) -> bool
    requires { form_verdict Exclude list.now ≡ Pass }
    ensures { result ≡ excluded_node (in_force round (subobjects list.now)) node.0 }
{
    some_passes(list, |item| bars_node(round, item.top, item.named, node))
}

// Some exclusion of the list has X set.
pub fn some_desired(list: &[u8]) -> bool
    requires { form_verdict Exclude list.now ≡ Pass }
    ensures { result ≡ some_desired (subobjects list.now) }
{
    some_passes(list, |item| item.top)
}
