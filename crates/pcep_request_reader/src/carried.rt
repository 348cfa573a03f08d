// The request that a PCReq carries, as a call takes it, with the ingress domain beside the message.
ghost use Rattle.std.specs.Prelude.{◌≡◌, unwrap_or};
ghost use Rattle.std.specs.Option.{is_some};
ghost use Rattle.model.specs.Request.{limits_of_bits};
ghost use Rattle.pcep_request_reader.specs.Carried.{CarriedIs};

use crate::fields::{PcreqParts, take_apart};
use model::{DomainIndex, Limits, Refusal};
use pcep_model::Extent;
use request::Asked;
use request::limits::limits_of;

// The ends, the ingress domain and the limits, and where the two lists stand in the message.
#[derive(Clone, Copy)]
pub struct CarriedRequest {
    pub asked: Asked,
    pub include: Extent,
    pub exclude: Extent,
}

// The bandwidth, and the METRIC that is judged as the bound.
fn limits_carried(parts: PcreqParts) -> Limits
    ensures { result ≡ limits_of_bits parts.fields.bandwidth (is_some parts.bound) (unwrap_or parts.bound 0) }
{
    limits_of(
        parts.fields.bandwidth,
        parts.bound.is_some(),
        parts.bound.unwrap_or(0),
    )
}

// The checks of the frame, and the request that a PCReq carries that passes them.
pub fn carried_by(ingress: DomainIndex, message: &[u8]) -> Result<CarriedRequest, Refusal>
    ensures { CarriedIs ingress.0 message.now result }
{
    let parts = take_apart(message)?;
    let fields = parts.fields;
    Ok(CarriedRequest {
        asked: Asked {
            ingress,
            source: fields.source,
            destination: fields.destination,
            limits: limits_carried(parts),
        },
        include: fields.include,
        exclude: fields.exclude,
    })
}
