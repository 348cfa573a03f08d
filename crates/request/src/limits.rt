// What is asked, as the C interface has it: numbers, and for the limits the bits of two floats and a mark.
ghost use Rattle.std.specs.Prelude.{◌≡◌};
ghost use Rattle.request.specs.Bits.{limits_of_bits, asked_of_bits};

use crate::Asked;
use crate::floats::float_of;
use model::{DomainIndex, Limits, NodeAddress};

// The limits of a request from their bits.
pub fn limits_of(bandwidth_bits: u32, bound_counts: bool, bound_bits: u32) -> Limits
    ensures { result ≡ limits_of_bits bandwidth_bits bound_counts bound_bits }
{
    Limits {
        bandwidth: float_of(bandwidth_bits),
        bound: float_of(bound_bits),
        bounded: bound_counts,
    }
}

// What is asked, from its numbers.
pub fn asked_of(
    ingress: u16,
    source: u32,
    destination: u32,
    bandwidth_bits: u32,
    bound_counts: bool,
    bound_bits: u32,
) -> Asked
    ensures { result ≡ asked_of_bits ingress source destination bandwidth_bits bound_counts bound_bits }
{
    Asked {
        ingress: DomainIndex(ingress),
        source: NodeAddress(source),
        destination: NodeAddress(destination),
        limits: limits_of(bandwidth_bits, bound_counts, bound_bits),
    }
}
