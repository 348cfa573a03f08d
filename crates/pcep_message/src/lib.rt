// A whole message: the common header, 36, the objects in turn, then 39, 40 and 41.
#![tactic(auto)]

ghost use Rattle.std.specs.Prelude.{◌≡◌, false, ◌≤◌, length};
ghost use Rattle.pcep_model.specs.Objects.{type_number, header_wrong};
ghost use Rattle.pcep_message.specs.Framed.{missing_verdict, FrameIs};

use crate::objects::{Objects, objects_in};
use model::{Reason, Refusal, Verdict};
use pcep_model::MessageKind;
use refusal::refuse_if;
use wire::u16_at;

pub mod objects;
pub mod parts;

fn type_number(kind: MessageKind) -> u8
    ensures { result ≡ type_number kind }
{
    match kind {
        MessageKind::Pcreq => 3,
        MessageKind::Pcrep => 4,
    }
}

// A header that is short, or wrong in version, type or length. A right one's message is no longer than its length field can say.
fn header_wrong(kind: MessageKind, message: &[u8]) -> bool
    ensures { (result ≡ header_wrong kind message.now) × (result ≡ false → (4 ≤ length message.now) × (length message.now ≤ 65535)) }
{
    message.len() < 4
        || message[0] / 32 != 1
        || message[1] != type_number(kind)
        || u16_at(message, 2) as usize != message.len()
        || message.len() % 4 != 0
}

// What a message lacks: an RP, in a PCReq END-POINTS, in a PCRep both ERO and NO-PATH.
fn missing(kind: MessageKind, firsts: Objects) -> Verdict
    ensures { result ≡ missing_verdict kind firsts }
{
    refuse_if(firsts.rp.is_none(), Reason::NoRequestParameters, 0)?;
    match kind {
        MessageKind::Pcreq => refuse_if(firsts.end_points.is_none(), Reason::NoEndPoints, 0),
        MessageKind::Pcrep => refuse_if(
            firsts.ero.is_none() && firsts.no_path.is_none(),
            Reason::NoRoute,
            0,
        ),
    }
}

// All checks of a message before its fields, and where they pass the first object of each class. For every byte slice.
#[tactic(auto, using(crate::proofs::Frames::by_header))]
pub fn frame(kind: MessageKind, message: &[u8]) -> Result<Objects, Refusal>
    ensures { FrameIs kind message.now result }
{
    if header_wrong(kind, message) {
        return Err(Refusal::new(Reason::WrongMessageHeader, 0));
    }
    let firsts = objects_in(kind, message)?;
    missing(kind, firsts)?;
    Ok(firsts)
}
