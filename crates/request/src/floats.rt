// The floats of a request: number 21 for a bandwidth or a bound whose bits lie from 7F800000 up. Every float is taken, NaN and minus zero too.
ghost use Rattle.std.specs.Prelude.{◌≡◌};
ghost use Rattle.model.specs.Floats.{in_range};
ghost use Rattle.model.specs.Request.{limits_verdict};
ghost use Rattle.request.specs.Bits.{float_of_bits};

use model::{Limits, Reason, Verdict};
use refusal::refuse_if;

// The bits lie below 7F800000: not negative, finite, a number. A NaN is told first, since its bits are undefined.
fn in_range(x: f32) -> bool
    ensures { result ≡ in_range x }
{
    if x != x {
        return false;
    }
    f32::to_bits(x) < 0x7F800000
}

// The bandwidth, and the bound where it counts.
pub fn limits_verdict(limits: Limits) -> Verdict
    ensures { result ≡ limits_verdict limits }
{
    refuse_if(!in_range(limits.bandwidth), Reason::FloatOutOfRange, 0)?;
    refuse_if(
        limits.bounded && !in_range(limits.bound),
        Reason::FloatOutOfRange,
        1,
    )
}

// The float of these bits; infinity for all from 7F800000 up, which are out of range like it. (A NaN's bits make no float.)
pub fn float_of(bits: u32) -> f32
    ensures { result ≡ float_of_bits bits }
{
    if bits < 0x7F800000 {
        return f32::from_bits(bits);
    }
    f32::from_bits(0x7F800000)
}
