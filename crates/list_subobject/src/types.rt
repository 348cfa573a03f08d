// The types of subobjects, by their numbers on the wire.
ghost use Rattle.std.specs.Prelude.{◌≡◌, ◌%◌, eqb};
ghost use Rattle.model.specs.Subobject.{type_at};
ghost use Rattle.list_subobject.specs.Items.{Readable};
ghost use Rattle.list_subobject.specs.Types.{TypeIs, number_of};

// A prefix of an IPv4 address, an AS of four bytes, an OSPF area, an IS-IS area, an AS of two bytes, and an EXRS.
#[derive(Clone, Copy, Debug, PartialEq, Eq)]
pub enum SubobjectType {
    Prefix = 1,
    WideSystem = 5,
    OspfArea = 6,
    IsisArea = 7,
    System = 32,
    Exrs = 33,
}

// The type that a subobject's first byte says beside the top bit, if it is one of those.
#[inline(always)]
pub fn type_of(first: u8) -> Option<SubobjectType>
    ensures { TypeIs (first % 128) result }
{
    match first % 128 {
        1 => Some(SubobjectType::Prefix),
        5 => Some(SubobjectType::WideSystem),
        6 => Some(SubobjectType::OspfArea),
        7 => Some(SubobjectType::IsisArea),
        32 => Some(SubobjectType::System),
        33 => Some(SubobjectType::Exrs),
        _ => None,
    }
}

// The type of the subobject at an offset where the form is right.
#[inline(always)]
pub fn type_there(list: &[u8], at: usize) -> SubobjectType
    requires { Readable list.now at }
    ensures { type_at list.now at ≡ number_of result }
{
    type_of(list[at]).unwrap()
}

// The type is that of an EXRS.
#[inline(always)]
pub fn is_exrs(first: u8) -> bool
    ensures { result ≡ eqb (first % 128) 33 }
{
    first % 128 == SubobjectType::Exrs as u8
}
