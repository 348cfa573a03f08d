// Check 19: at most 16 entry nodes for each pair of different domains. The records of a pair stand together, so one pass notes the different entry nodes
// of the current pair and no more.
ghost use Rattle.std.specs.Prelude.{◌≡◌, true, cond, ◌&&◌, ◌≤◌, length, eqb, leb};
ghost use Rattle.model.specs.Lists.{among};
ghost use Rattle.model.specs.Verdict.{Pass, in_turn};
ghost use Rattle.model.specs.Profile.{hop_count, hop_verdict, crowded_verdict};
ghost use Rattle.profile_records.specs.Layout.{layout_of, HopsWithin};
ghost use Rattle.profile_check.specs.Noting.{Padded, Added, with_node};

use model::{DomainIndex, NodeAddress, Reason, Verdict};
use profile_records::header::{domain_count, hop_count};
use profile_records::hop::hop_at;
use profile_records::layout::Layout;
use refusal::refuse;

// The different entry nodes that records of the pair (from, to) name, in the first `count` places. The places past them repeat one of them, so that all 16
// are compared at once.
#[derive(Clone, Copy)]
struct EntryNodes {
    from: DomainIndex,
    to: DomainIndex,
    nodes: [u32; 16],
    count: usize,
}

impl EntryNodes {
    // Whether a node is in any of the 16 places.
    fn has(&self, node: NodeAddress) -> bool
        requires { length self.now.nodes ≡ 16 }
        ensures { result ≡ among node.0 self.now.nodes }
    {
        let mut found = false;
        for other in &self.nodes {
            found |= *other == node.0;
        }
        found
    }

    // Notes a node of the pair, once; or tells that there is no room for it, a seventeenth.
    fn note(&mut self, node: NodeAddress) -> bool
        requires { (self.old.count ≤ 16) × (length self.old.nodes ≡ 16) × Padded self.old.nodes self.old.count }
        ensures value { result ≡ leb (with_node self.old.nodes self.old.count node.0) 16 }
        ensures added { result ≡ true → Added self.old.nodes self.old.count node.0 self.new.nodes (with_node self.old.nodes self.old.count node.0) × (self.new.count ≡ with_node self.old.nodes self.old.count node.0) }
        ensures same_pair { (self.new.from ≡ self.old.from) × (self.new.to ≡ self.old.to) }
    {
        let address = node.0;
        if self.count == 0 {
            self.nodes = [address; 16];
            self.count = 1;
            return true;
        }
        if self.has(node) {
            return true;
        }
        if self.count == 16 {
            return false;
        }
        self.nodes[self.count] = address;
        self.count += 1;
        true
    }

    // Goes on with a pair: where it is another, nothing is noted of it.
    fn turn_to(&mut self, from: DomainIndex, to: DomainIndex)
        ensures count { self.new.count ≡ cond (eqb from.0 self.old.from.0 && eqb to.0 self.old.to.0) self.old.count 0 }
        ensures pair { (self.new.from ≡ from) × (self.new.to ≡ to) }
        ensures same_nodes { self.new.nodes ≡ self.old.nodes }
    {
        if from != self.from || to != self.to {
            self.from = from;
            self.to = to;
            self.count = 0;
        }
    }
}

// Every hop record in turn, once each has passed its own checks.
pub fn crowded_verdict(s: &[u8], layout: Layout) -> Verdict
    requires hops_within { HopsWithin (layout_of layout) s.now (hop_count s.now) }
    requires s_value { in_turn (hop_verdict (layout_of layout) s.now) 0 (hop_count s.now) ≡ Pass }
    ensures { result ≡ in_turn (crowded_verdict (layout_of layout) s.now) 0 (hop_count s.now) }
{
    let domains = domain_count(s) as usize;
    let hops = hop_count(s) as usize;
    let mut noted = EntryNodes {
        from: DomainIndex(0),
        to: DomainIndex(0),
        nodes: [0; 16],
        count: 0,
    };
    for i in 0..hops {
        let h = hop_at(s, layout, i);
        noted.turn_to(h.from, h.to);
        if h.from != h.to {
            if !noted.note(h.head) {
                return refuse(Reason::CrowdedPair, (domains + i) as u32);
            }
        }
    }
    Ok(())
}
