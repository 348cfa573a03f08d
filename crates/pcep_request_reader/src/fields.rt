// What a PCReq carries, by where its first objects stand: its fields, and the METRIC that is judged as the bound.
ghost use Rattle.std.specs.Prelude.{◌≡◌, ◌+◌, ◌≤◌, length, ℕ};
ghost use Rattle.std.specs.Option.{ForSome, option_or, option_map};
ghost use Rattle.pcep_model.specs.Metrics.{value_at};
ghost use Rattle.pcep_model.specs.declared.MessageKind.TheVariants.{Pcreq};
ghost use Rattle.pcep_message.specs.Framed.{FramePassed};
ghost use Rattle.pcep_request_reader.specs.ParsedPcreq.{Framed, FieldsAre, PartsAre, ParsedPcreqIs};

use model::{NodeAddress, Refusal};
use pcep_message::frame;
use pcep_message::objects::Objects;
use pcep_message::parts::{bits_at, extent_of, rp_at};
use pcep_metrics::judge;
use pcep_model::{MessageKind, PcreqFields};
use wire::u32_at;

// The METRIC that is judged as the bound: one out of range goes before the first with B set.
fn judged(bound: Option<u16>, wrong: Option<u16>) -> Option<u16>
    ensures { result ≡ option_or wrong bound }
{
    wrong.or(bound)
}

// The bits of a METRIC's value.
fn value_of(message: &[u8], metric: Option<u16>) -> Option<u32>
    requires { (length message.now ≤ 65535) × ForSome metric (λ (at : ℕ). at + 12 ≤ length message.now) }
    ensures { result ≡ option_map (λ (at : ℕ). value_at message.now at) metric }
{
    let at = metric? as usize;
    Some(u32_at(message, at + 8))
}

// The fields of a PCReq whose frame passes, by its first objects and the number of its METRICs.
fn fields_of(message: &[u8], firsts: Objects, metrics: usize) -> PcreqFields
    requires { Framed message.now firsts metrics }
    ensures { FieldsAre message.now result }
{
    let rp = rp_at(message, firsts.rp.unwrap() as usize);
    let ends = firsts.end_points.unwrap() as usize;
    let include = extent_of(message, firsts.iro, 4);
    let exclude = extent_of(message, firsts.xro, 8);
    PcreqFields {
        id: rp.id,
        flags: rp.flags,
        source: NodeAddress(u32_at(message, ends + 4)),
        destination: NodeAddress(u32_at(message, ends + 8)),
        bandwidth: bits_at(message, firsts.bandwidth, 4),
        metrics: metrics as u32,
        include,
        exclude,
    }
}

// The fields of a PCReq whose frame passes, the bits of the bound, if one counts, and whether some METRIC is out of range.
#[derive(Clone, Copy)]
pub struct PcreqParts {
    pub fields: PcreqFields,
    pub bound: Option<u32>,
    pub wrong: bool,
}

// The parts of a PCReq whose frame passes, by its first objects.
fn parts_of(message: &[u8], firsts: Objects) -> PcreqParts
    requires { FramePassed Pcreq message.now firsts }
    ensures { PartsAre message.now result }
{
    let met = judge(message);
    PcreqParts {
        fields: fields_of(message, firsts, met.count),
        bound: value_of(message, judged(met.bound, met.wrong)),
        wrong: met.wrong.is_some(),
    }
}

// The checks of the frame, 36 to 40, and the parts of a PCReq that passes them. For every byte slice.
pub fn take_apart(message: &[u8]) -> Result<PcreqParts, Refusal>
    ensures { ParsedPcreqIs message.now result }
{
    let firsts = frame(MessageKind::Pcreq, message)?;
    Ok(parts_of(message, firsts))
}
