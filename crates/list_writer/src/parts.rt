// The subobjects of a written list, each put into a buffer from a place on. Each writer answers the place after what it put.
ghost use Rattle.std.specs.Prelude.{◌+◌, ◌-◌, ◌≤◌, length};
ghost use Rattle.model.specs.WrittenList.{written_pin, system_if, written_area};
ghost use Rattle.buffers.specs.Placed.{Put};
ghost use Rattle.laws.specs.Stops.{pin_as};
ghost use Rattle.list_writer.specs.Writing.{AreaRight, stop_bytes};

use buffers::put_bytes;
use list_form::rounded_up;
use list_subobject::types::SubobjectType;
use model::{Domain, NodeAddress};
use wire::{put_u16, put_u32};

// Type 1, prefix length 32: an entry constraint, where there is one.
fn put_pin(out: &mut [u8], at: usize, pin: Option<NodeAddress>) -> usize
    requires { at + length (written_pin (pin_as pin)) ≤ length out.old }
    ensures { Put at (written_pin (pin_as pin)) out.old out.new result }
{
    let Some(node) = pin else {
        return at;
    };
    put_u16(out, at, 0x0108);
    put_u32(out, at + 2, node.0);
    put_u16(out, at + 6, 0x2000);
    at + 8
}

// Type 5: an AS, unless it is the one before.
fn put_system(out: &mut [u8], at: usize, again: bool, asn: u32) -> usize
    requires { at + length (system_if again asn) ≤ length out.old }
    ensures { Put at (system_if again asn) out.old out.new result }
{
    if again {
        return at;
    }
    let head: [u8; 4] = [SubobjectType::WideSystem as u8, 8, 0, 0];
    let rest = put_bytes(out, at, &head, 4);
    put_u32(out, rest, asn);
    rest + 4
}

// Type 6 or 7 by the area kind, nothing for kind 0. Only type 7 tells the area's length and is padded, to a multiple of 4.
fn put_area(out: &mut [u8], at: usize, d: Domain) -> usize
    requires { (at + length (written_area d.kind d) ≤ length out.old) × AreaRight d }
    ensures { Put at (written_area d.kind d) out.old out.new result }
{
    let kind = d.kind;
    if kind == 0 {
        return at;
    }
    let n = d.length;
    let size = n as usize;
    let padded = rounded_up(n) as usize;
    let head: [u8; 4] = [5 + kind, (4 + padded) as u8, (kind - 1) * n, 0];
    let start = put_bytes(out, at, &head, 4);
    let area = d.area;
    let end = put_bytes(out, start, &area, size);
    let zeros = [0u8; 3];
    put_bytes(out, end, &zeros, padded - size)
}

// One domain of the sequence: its entry constraint, its EXRS as they are, its AS unless it is the one before, its area.
pub fn put_stop(
    out: &mut [u8],
    at: usize,
    pin: Option<NodeAddress>,
    exrs: &[u8],
    again: bool,
    d: Domain,
) -> usize
    requires { (at + length (stop_bytes (pin_as pin) exrs.now again d) ≤ length out.old) × AreaRight d }
    ensures { Put at (stop_bytes (pin_as pin) exrs.now again d) out.old out.new result }
{
    let stretch = put_pin(out, at, pin);
    let system = put_bytes(out, stretch, exrs, exrs.len());
    let area = put_system(out, system, again, d.asn);
    put_area(out, area, d)
}
