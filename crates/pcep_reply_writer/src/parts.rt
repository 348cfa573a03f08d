// The parts of a written PCRep, each put into a buffer from a place on. Each writer answers the place after what it put.
ghost use Rattle.std.specs.Prelude.{◌≡◌, cond, ◌∷◌, ◌++◌, ◌+◌, ◌*◌, ◌≤◌, length};
ghost use Rattle.model.specs.Bytes.{bytes_of};
ghost use Rattle.model.specs.Lists.{each};
ghost use Rattle.buffers.specs.Placed.{Put};
ghost use Rattle.pcep_model.specs.declared.MessageKind.TheVariants.{Pcrep};
ghost use Rattle.pcep_model.specs.Pcrep.{mark, header_bytes, written_rp, written_step, written_ero, written_no_path, written_metric, metrics_of};
ghost use Rattle.pcep_reply_writer.specs.Lengths.{route_length, Together};
ghost use Rattle.pcep_reply_writer.specs.Routes.{is_path, addresses_of, nature_of, c_of};

use wire::{put_u16, put_u32};

// The common header of a message of `size` bytes, and the RP.
pub fn put_head(out: &mut [u8], size: u16, flags: u32, id: u32) -> usize
    requires { 16 ≤ length out.old }
    ensures { Put 0 (header_bytes Pcrep size ++ written_rp id flags) out.old out.new result }
{
    put_u32(out, 12, id);
    put_u32(out, 8, flags % 64);
    put_u32(out, 4, 0x0212000c);
    put_u16(out, 2, size);
    put_u16(out, 0, 0x2004);
    16
}

// The first address of an ERO, and before it what begins its subobject: type 1, L clear, length 8. The address is stored first, since the compiler then
// makes one store of its four bytes.
fn put_first(out: &mut [u8], at: usize, address: u32) -> usize
    requires { at + 6 ≤ length out.old }
    ensures { Put at (1 ∷ 8 ∷ bytes_of 4 address) out.old out.new result }
{
    put_u32(out, at + 2, address);
    put_u16(out, at, 0x0108);
    at + 6
}

// A further address, and before it in one store what ends the subobject before (prefix length 32) and begins its own.
fn put_next(out: &mut [u8], at: usize, address: u32) -> usize
    requires { at + 8 ≤ length out.old }
    ensures { Put at (32 ∷ 0 ∷ 1 ∷ 8 ∷ bytes_of 4 address) out.old out.new result }
{
    put_u32(out, at + 4, address);
    put_u32(out, at, 0x20000108);
    at + 8
}

// The addresses of an ERO. In the loop `at` is the place after an address: what ends its subobject is put with the next.
fn put_steps(out: &mut [u8], start: usize, addresses: &[u32]) -> usize
    requires { start + 8 * length addresses.now ≤ length out.old }
    ensures { Put start (each written_step addresses.now) out.old out.new result }
{
    if addresses.is_empty() {
        return start;
    }
    let mut at = put_first(out, start, addresses[0]);
    for i in 1..addresses.len() {
        at = put_next(out, at, addresses[i]);
    }
    put_u16(out, at, 0x2000);
    at + 2
}

// An ERO.
fn put_ero(out: &mut [u8], at: usize, addresses: &[u32]) -> usize
    requires { (at + (4 + 8 * length addresses.now) ≤ length out.old) × (4 + 8 * length addresses.now ≤ 65535) }
    ensures { Put at (written_ero addresses.now) out.old out.new result }
{
    let size = 4 + 8 * addresses.len();
    put_u16(out, at, 0x0710);
    put_u16(out, at + 2, size as u16);
    put_steps(out, at + 4, addresses)
}

// A NO-PATH's C is the topmost of its flags.
fn flags_of(c: bool) -> u16
    ensures { (result ≡ 128 * mark c) × (result ≤ 128) }
{
    if c { 128 } else { 0 }
}

// A NO-PATH.
fn put_no_path(out: &mut [u8], at: usize, nature: u8, c: bool) -> usize
    requires { at + 8 ≤ length out.old }
    ensures { Put at (written_no_path nature c) out.old out.new result }
{
    let flags = flags_of(c);
    put_u32(out, at, 0x03100008);
    put_u16(out, at + 4, nature as u16 * 256 + flags);
    put_u16(out, at + 6, 0);
    at + 8
}

// What a reply says of a path: its addresses, or why there is none.
#[derive(Clone, Copy)]
pub enum Route<'a> {
    Path(&'a [u32]),
    NoPath { nature: u8, c: bool },
}

// An ERO for a path, else a NO-PATH.
pub fn put_route(out: &mut [u8], at: usize, route: Route) -> usize
    requires { (at + route_length (is_path route) (length (addresses_of route)) ≤ length out.old) × (route_length (is_path route) (length (addresses_of route)) ≤ 65535) }
    ensures { Put at (cond (is_path route.entry) (written_ero (addresses_of route.entry)) (written_no_path (nature_of route.entry) (c_of route.entry))) out.old out.new result }
{
    match route {
        Route::Path(addresses) => put_ero(out, at, addresses),
        Route::NoPath { nature, c } => put_no_path(out, at, nature, c),
    }
}

// One METRIC, the value stored first, as the addresses are.
fn put_metric(out: &mut [u8], at: usize, kind: u8, flags: u8, value: u32) -> usize
    requires { at + 12 ≤ length out.old }
    ensures { Put at (written_metric (record { kind = kind; flags = flags; value = value })) out.old out.new result }
{
    put_u32(out, at + 8, value);
    put_u16(out, at + 6, flags as u16 * 256 + kind as u16);
    put_u16(out, at + 4, 0);
    put_u32(out, at, 0x0610000c);
    at + 12
}

// Kind, flags and value of each METRIC, in three lists.
#[derive(Clone, Copy)]
pub struct Metrics<'a> {
    pub kinds: &'a [u8],
    pub flags: &'a [u8],
    pub values: &'a [u32],
}

// The METRICs.
pub fn put_metrics(out: &mut [u8], start: usize, metrics: Metrics) -> usize
    requires { (start + 12 * length metrics.kinds.now ≤ length out.old) × Together metrics.kinds.now metrics.flags.now metrics.values.now }
    ensures { Put start (each written_metric (metrics_of metrics.entry.kinds.now metrics.entry.flags.now metrics.entry.values.now)) out.old out.new result }
{
    let kinds = metrics.kinds;
    let flags = metrics.flags;
    let values = metrics.values;
    let mut at = start;
    for i in 0..kinds.len() {
        at = put_metric(out, at, kinds[i], flags[i], values[i]);
    }
    at
}
