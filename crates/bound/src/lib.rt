// A total as a float, the nearest one; and a total and the bound.
#![tactic(auto)]

ghost use Rattle.std.specs.Prelude.{◌≡◌, true};
ghost use Rattle.model.specs.Floats.{in_range, float_of};
ghost use Rattle.model.specs.Path.{keeps_bound};

use model::Limits;
use std::num::nearest_u32_to_f32;

// The total as a 32-bit float, for whoever asked: nothing is compared with it, since it may lie on either side of the total.
pub fn total_float(total: u32) -> f32
    ensures { (result ≡ float_of total) × (in_range result ≡ true) }
{
    nearest_u32_to_f32(total)
}

// The bound is kept, where it counts. The total and the bound are 64-bit floats exactly, and there they are compared.
pub fn keeps_bound(limits: Limits, total: u32) -> bool
    requires { limits.bounded ≡ true → in_range limits.bound ≡ true }
    ensures { result ≡ keeps_bound limits total }
{
    if !limits.bounded {
        return true;
    }
    (total as f64) <= (limits.bound as f64)
}
