// The call that reads a PCReq: the checks whose inputs it takes, the fields, and the METRICs into lent buffers.
#![tactic(auto)]

ghost use Rattle.std.specs.Prelude.{◌≡◌};
ghost use Rattle.model.specs.Calls.{room_verdict};
ghost use Rattle.pcep_model.specs.Pcreq.{floats_by};
ghost use Rattle.pcep_request_reader.specs.ParsedPcreq.{PartsAre};
ghost use Rattle.pcep_request_reader.specs.Reading.{ReadBy, CheckedPcreqIs, rest_verdict};

use crate::fields::{PcreqParts, take_apart};
use buffers::lesser;
use model::{Reason, Refusal, Verdict};
use pcep_message::parts::list_in;
use pcep_metrics::put_metrics;
use pcep_model::PcreqFields;
use refusal::refuse_if;
use request::checks::{forms_verdict, sizes_verdict};

pub mod carried;
pub mod fields;

// 21 for the bandwidth, then for some METRIC that is out of range.
fn floats_verdict(bandwidth: u32, wrong: bool) -> Verdict
    ensures { result ≡ floats_by bandwidth wrong }
{
    refuse_if(0x7F800000 <= bandwidth, Reason::FloatOutOfRange, 0)?;
    refuse_if(wrong, Reason::FloatOutOfRange, 1)
}

// 34 for the METRICs.
fn metrics_verdict(metrics: u32, room: usize) -> Verdict
    ensures { result ≡ room_verdict metrics room }
{
    refuse_if(room < metrics as usize, Reason::LittleRoom, 0)
}

// What is left to check of a PCReq whose frame passes: 21, 22, the form of both lists, then 34.
fn rest_verdict(message: &[u8], parts: PcreqParts, room: usize) -> Verdict
    requires { PartsAre message.now parts }
    ensures { result ≡ rest_verdict message.now room }
{
    let fields = parts.fields;
    floats_verdict(fields.bandwidth, parts.wrong)?;
    let include = list_in(message, fields.include);
    let exclude = list_in(message, fields.exclude);
    sizes_verdict(include, exclude)?;
    forms_verdict(include, exclude)?;
    metrics_verdict(fields.metrics, room)
}

// The first check of a PCReq that refuses, or its fields.
fn check(message: &[u8], room: usize) -> Result<PcreqFields, Refusal>
    ensures { CheckedPcreqIs message.now room result }
{
    let parts = take_apart(message)?;
    rest_verdict(message, parts, room)?;
    Ok(parts.fields)
}

// The fields of a PCReq, and kind, flags and value of each METRIC in lent buffers. On a refusal they keep what they held. For every byte slice.
pub fn read_pcreq(
    message: &[u8],
    kinds: &mut [u8],
    flags: &mut [u8],
    values: &mut [u32],
) -> Result<PcreqFields, Refusal>
    ensures { ReadBy message.now kinds.old flags.old values.old result kinds.new flags.new values.new }
{
    let room = lesser(kinds.len(), lesser(flags.len(), values.len()));
    let fields = check(message, room)?;
    let count = fields.metrics as usize;
    put_metrics(message, count, kinds, flags, values);
    Ok(fields)
}
