// The types of PCEP messages: which message is read, and what the calls that read one tell of it. What is right is said in specs/.
#![tactic(auto)]

use model::NodeAddress;

// Which message is read: a request to compute paths, or the reply to one.
#[derive(Clone, Copy)]
pub enum MessageKind {
    Pcreq,
    Pcrep,
}

// Where a list stands in a message: its first byte and its number of bytes, 0 and 0 for a list that isn't there.
#[derive(Clone, Copy)]
pub struct Extent {
    pub start: u32,
    pub size: u32,
}

// The fields of a PCReq but for its METRICs, of which it has the number: RP's request-ID and those of its flags that RFC 5440 assigns, both ends, the
// bits of the bandwidth, and where the lists stand.
#[derive(Clone, Copy)]
pub struct PcreqFields {
    pub id: u32,
    pub flags: u32,
    pub source: NodeAddress,
    pub destination: NodeAddress,
    pub bandwidth: u32,
    pub metrics: u32,
    pub include: Extent,
    pub exclude: Extent,
}

// The fields of a PCRep but for its addresses and METRICs, of which it has the numbers: RP's as above, whether there is a path, and a NO-PATH's
// nature of issue and C.
#[derive(Clone, Copy)]
pub struct PcrepFields {
    pub id: u32,
    pub flags: u32,
    pub found: bool,
    pub nature: u8,
    pub c: bool,
    pub addresses: u32,
    pub metrics: u32,
}
