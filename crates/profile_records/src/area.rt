// Whether a domain record has the area that a subobject names. The area's bytes stand in the list.
ghost use Rattle.std.specs.Prelude.{◌≡◌, ◌+◌, ◌≤◌, length, take};
ghost use Rattle.model.specs.Bytes.{part};
ghost use Rattle.model.specs.Lists.{same};
ghost use Rattle.model.specs.Sequence.{has_area};

use model::Domain;
use wire::wide;

// The domain's area is the one of this kind whose bytes are the `count` bytes of the list from `start` on.
pub fn has_area(d: Domain, list: &[u8], kind: u8, start: usize, count: usize) -> bool
    requires { (start + count ≤ length list.now) × (d.length ≤ 13) }
    ensures { result ≡ has_area (record { kind = kind; bytes = part list.now start count }) d }
{
    d.kind == kind && d.area[..wide(d.length)] == list[start..start + count]
}
