// What an object of a message holds, by where it starts: four bytes of it, and the list behind its fixed part.
ghost use Rattle.std.specs.Prelude.{ℕ, ◌≡◌, ◌+◌, ◌≤◌, length};
ghost use Rattle.std.specs.Option.{ForSome};
ghost use Rattle.pcep_model.specs.Pcreq.{rp_flags_at, request_id_at, list_in};
ghost use Rattle.pcep_laws.specs.Left.{Stands};
ghost use Rattle.pcep_message.specs.Extents.{bits_in, ExtentIs};

use pcep_model::Extent;
use wire::{u16_at, u32_at};

// The four bytes behind the start of an object, 0 where there is no object.
pub fn bits_at(message: &[u8], object: Option<u16>, behind: usize) -> u32
    requires { (length message.now ≤ 65535) × ForSome object (λ (at : ℕ). at + behind + 4 ≤ length message.now) }
    ensures { result ≡ bits_in message.now object behind }
{
    match object {
        Some(at) => u32_at(message, at as usize + behind),
        None => 0,
    }
}

// What an RP holds: the flags that are assigned, and the request-ID.
#[derive(Clone, Copy)]
pub struct RpFields {
    pub flags: u32,
    pub id: u32,
}

pub fn rp_at(message: &[u8], at: usize) -> RpFields
    requires { (length message.now ≤ 65535) × (at + 12 ≤ length message.now) }
    ensures { (result.flags ≡ rp_flags_at message.now at) × (result.id ≡ request_id_at message.now at) }
{
    RpFields {
        flags: u32_at(message, at + 4) % 64,
        id: u32_at(message, at + 8),
    }
}

// The list that an object holds behind its fixed part.
pub fn extent_of(message: &[u8], object: Option<u16>, fixed: usize) -> Extent
    requires { (length message.now ≤ 65535) × (fixed ≤ 8) × ForSome object (λ (at : ℕ). Stands message.now at fixed) }
    ensures { ExtentIs message.now object fixed result }
{
    match object {
        Some(start) => {
            let at = start as usize;
            let n = u16_at(message, at + 2) as usize;
            Extent {
                start: (at + fixed) as u32,
                size: (n - fixed) as u32,
            }
        }
        None => Extent { start: 0, size: 0 },
    }
}

// The bytes of a list that stands in a message.
pub fn list_in(message: &[u8], list: Extent) -> &[u8]
    requires { list.start + list.size ≤ length message.now }
    ensures { result.now ≡ list_in message.now list }
{
    let start = list.start as usize;
    let end = start + list.size as usize;
    &message[start..end]
}
