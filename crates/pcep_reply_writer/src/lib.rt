// `write_pcrep`: the PCRep for a path's addresses or for none, and METRICs.
#![tactic(auto)]

ghost use Rattle.std.specs.Prelude.{◌≡◌, length};
ghost use Rattle.model.specs.Lists.{any};
ghost use Rattle.buffers.specs.Placed.{Put};
ghost use Rattle.pcep_model.specs.Metrics.{out_of_range};
ghost use Rattle.pcep_model.specs.Pcrep.{written_pcrep, apart};
ghost use Rattle.pcep_reply_writer.specs.Lengths.{capped, route_length, message_length};
ghost use Rattle.pcep_reply_writer.specs.Routes.{is_path, addresses_of, nature_of, c_of, RouteIs};
ghost use Rattle.pcep_reply_writer.specs.Writing.{reply_of, malformed_reply, reply_verdict, Fits, WrittenReply};

use crate::parts::{Metrics, Route, put_head, put_metrics, put_route};
use model::{Reason, Refusal, Verdict};
use refusal::refuse_if;

pub mod parts;

// What the parameters of `write_pcrep` say of a path.
fn route_of<'a>(found: bool, addresses: &'a [u32], nature: u8, c: bool) -> Route<'a>
    ensures { RouteIs found addresses.now nature c result }
{
    if found {
        Route::Path(addresses)
    } else {
        Route::NoPath { nature, c }
    }
}

// The length of the ERO or the NO-PATH, or the greatest number where it is more.
fn route_length(route: Route) -> usize
    ensures { result ≡ capped (route_length (is_path route.entry) (length (addresses_of route.entry))) }
{
    match route {
        Route::Path(addresses) => addresses.len().saturating_mul(8).saturating_add(4),
        Route::NoPath { .. } => 8,
    }
}

// The length of the message, or the greatest number where it is more.
fn message_length(route: Route, metrics: usize) -> usize
    ensures { result ≡ capped (message_length (is_path route.entry) (length (addresses_of route.entry)) metrics) }
{
    route_length(route)
        .saturating_add(16)
        .saturating_add(metrics.saturating_mul(12))
}

// A METRIC's value is out of range: its bits are 0x7F800000 or more.
fn out_of_range(values: &[u32]) -> bool
    ensures { result ≡ any out_of_range values.now }
{
    values.iter().any(|value| 0x7f800000 <= *value)
}

// The METRIC lists don't belong together, or the message is too long.
fn malformed(size: usize, metrics: Metrics) -> bool
    ensures { result ≡ malformed_reply size (length metrics.entry.kinds.now) (length metrics.entry.flags.now) (length metrics.entry.values.now) }
{
    let count = metrics.kinds.len();
    metrics.flags.len() != count || metrics.values.len() != count || 65535 < size
}

// 37, 21, then 34.
fn reply_verdict(size: usize, metrics: Metrics, room: usize) -> Verdict
    ensures { result ≡ reply_verdict size (length metrics.entry.kinds.now) (length metrics.entry.flags.now) metrics.entry.values.now room }
{
    refuse_if(malformed(size, metrics), Reason::WrongObject, 0)?;
    refuse_if(out_of_range(metrics.values), Reason::FloatOutOfRange, 1)?;
    refuse_if(room < size, Reason::LittleRoom, 0)
}

// The message into the start of a buffer that has room for it. Its length is the answer.
fn put_reply(
    id: u32,
    flags: u32,
    route: Route,
    metrics: Metrics,
    out: &mut [u8],
    size: usize,
) -> usize
    requires { Fits (is_path route) (addresses_of route) metrics.kinds.now metrics.flags.now metrics.values.now out.old size }
    ensures { Put 0 (written_pcrep (reply_of id flags (is_path route.entry) (addresses_of route.entry) (nature_of route.entry) (c_of route.entry) metrics.entry.kinds.now metrics.entry.flags.now metrics.entry.values.now)) out.old out.new result }
{
    let second = put_head(out, size as u16, flags, id);
    let third = put_route(out, second, route);
    put_metrics(out, third, metrics)
}

// The message for a reply, for every input: 37, 21, 34, and then the bytes. On a refusal the buffer is untouched.
pub fn write_pcrep(
    id: u32,
    flags: u32,
    found: bool,
    addresses: &[u32],
    nature: u8,
    c: bool,
    kinds: &[u8],
    metric_flags: &[u8],
    values: &[u32],
    out: &mut [u8],
) -> Result<u32, Refusal>
    ensures { WrittenReply (reply_of id flags found addresses.now nature c kinds.now metric_flags.now values.now) (apart kinds.now metric_flags.now values.now) out.old out.new result }
{
    let route = route_of(found, addresses, nature, c);
    let metrics = Metrics {
        kinds,
        flags: metric_flags,
        values,
    };
    let size = message_length(route, kinds.len());
    reply_verdict(size, metrics, out.len())?;
    put_reply(id, flags, route, metrics, out, size);
    Ok(size as u32)
}
