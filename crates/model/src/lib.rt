// The public types of the calculator. What is right is said in specs/, over these types.
#![tactic(auto)]

use std::fmt;

// A domain's place among the profile's domain records, counted from 0.
#[derive(Clone, Copy, Debug, PartialEq, Eq, PartialOrd, Ord)]
pub struct DomainIndex(pub u16);

// A node's IPv4 address, as a number.
#[derive(Clone, Copy, Debug, PartialEq, Eq, PartialOrd, Ord)]
pub struct NodeAddress(pub u32);

impl fmt::Display for NodeAddress {
    // In dotted form.
    fn fmt<W: fmt::Write>(&self, f: &mut fmt::Formatter<W>) -> fmt::Result {
        let [a, b, c, d] = self.0.to_be_bytes();
        write!(f, "{a}.{b}.{c}.{d}")
    }
}

// A domain record: its autonomous system number, and its area's kind (0 none, 1 OSPF, 2 IS-IS), length and bytes.
#[derive(Clone, Copy)]
pub struct Domain {
    pub asn: u32,
    pub kind: u8,
    pub length: u8,
    pub area: [u8; 13],
}

// A hop record: inside the domain `from` one comes from the node `tail` to the node `head`, which is an entry node of the
// domain `to`, or an end point in `from` where the two are the same. (Document 01 calls them D, E, u and v.)
#[derive(Clone, Copy)]
pub struct Hop {
    pub from: DomainIndex,
    pub to: DomainIndex,
    pub tail: NodeAddress,
    pub head: NodeAddress,
    pub cost: u32,
    pub bandwidth: f32,
}

// A request's bandwidth and cost bound. The bound counts only where `bounded` is true.
#[derive(Clone, Copy)]
pub struct Limits {
    pub bandwidth: f32,
    pub bound: f32,
    pub bounded: bool,
}

// Why a call refuses; `as u32` gives document 01's number.
#[derive(Clone, Copy, Debug, PartialEq, Eq)]
pub enum Reason {
    ShortProfile = 10,
    WrongHeader = 11,
    WrongCounts = 12,
    WrongLength = 13,
    MalformedDomain = 14,
    MisorderedDomain = 15,
    Misplaced = 16,
    MalformedHop = 17,
    MisorderedHop = 18,
    CrowdedPair = 19,
    UnknownIngress = 20,
    FloatOutOfRange = 21,
    LongList = 22,
    CutOff = 23,
    UnknownType = 24,
    SubobjectLength = 25,
    WrongField = 26,
    LooseBit = 27,
    UnknownDomain = 28,
    SeveralDomains = 29,
    DomainAgain = 30,
    TooManyDomains = 31,
    EntryConstraintLeft = 32,
    GivenLength = 33,
    LittleRoom = 34,
    Unwritable = 35,
    WrongMessageHeader = 36,
    WrongObject = 37,
    UnknownObject = 38,
    NoRequestParameters = 39,
    NoEndPoints = 40,
    NoRoute = 41,
    ExrsLeft = 42,
}

// Document 01's number of a refusal, and its place.
#[derive(Clone, Copy, Debug, PartialEq, Eq)]
pub struct Refusal {
    pub number: u32,
    pub place: u32,
}

impl Refusal {
    ghost use Rattle.std.specs.Prelude.{◌≡◌};
    ghost use Rattle.model.specs.Verdict.{number_of};

    pub fn new(reason: Reason, place: u32) -> Refusal
        ensures { result ≡ record { number = number_of reason; place = place } }
    {
        Refusal {
            number: reason as u32,
            place,
        }
    }
}

// A domain of a sequence as an include list names it: its index, the node of its entry constraint if it has one, and where in the list the subobject stands that
// named it.
#[derive(Clone, Copy)]
pub struct NamedStop {
    pub domain: DomainIndex,
    pub pin: Option<NodeAddress>,
    pub named: u16,
}

// What a check says: the input passes it, or is refused.
pub type Verdict = Result<(), Refusal>;

// Which of a request's two lists is read: an include list (IRO) or an exclude list (XRO).
#[derive(Clone, Copy, Debug, PartialEq, Eq)]
pub enum ListKind {
    Include,
    Exclude,
}

// Which search for paths a call's answer comes from: the first, with every exclusion, or, where that finds no admissible path and some exclusion
// is only desired (its X bit is set), the second, without those.
#[derive(Clone, Copy, Debug, PartialEq, Eq)]
pub enum Round {
    First,
    Second,
}

// One entry of the tree: its place in the sequence of domains, the node, whether the destination can be reached from it,
// and the least cost of doing so (0 where it can't).
#[derive(Clone, Copy)]
pub struct TreeEntry {
    pub level: u32,
    pub address: NodeAddress,
    pub reachable: bool,
    pub cost: u32,
}

// The answers of the public calls where they don't refuse. `numbers_of…` in specs/Answers.antt gives document 01's numbers for each case.

// An include list that was read: how many domains its sequence has, and how many bytes their EXRS.
#[derive(Clone, Copy, Debug, PartialEq, Eq)]
pub struct ReadCounts {
    pub count: u32,
    pub exrs: u32,
}

// A tree that was built: how many entries it has, how many hop records were examined for it, and the round.
#[derive(Clone, Copy)]
pub struct BuiltTree {
    pub entries: u32,
    pub tally: u32,
    pub round: Round,
}

#[derive(Clone, Copy)]
pub enum PathAnswer {
    // A path's total as a whole number and as the nearest float.
    Found {
        total: u32,
        float: f32,
        round: Round,
    },
    // first: no admissible path
    NoPath,
    // next: nothing greater
    End,
}
