// The call that reads a PCRep: its fields, and addresses and METRICs into lent buffers.
#![tactic(auto)]

ghost use Rattle.pcep_reply_reader.specs.Reading.{ReadBy};

use crate::fields::check;
use buffers::lesser;
use model::Refusal;
use pcep_ero::put_addresses;
use pcep_message::parts::list_in;
use pcep_metrics::put_metrics;
use pcep_model::PcrepFields;

pub mod fields;

// On a refusal the buffers keep what they held. For every byte slice.
pub fn read_pcrep(
    message: &[u8],
    addresses: &mut [u32],
    kinds: &mut [u8],
    flags: &mut [u8],
    values: &mut [u32],
) -> Result<PcrepFields, Refusal>
    ensures { ReadBy message.now addresses.old kinds.old flags.old values.old result addresses.new kinds.new flags.new values.new }
{
    let room = lesser(kinds.len(), lesser(flags.len(), values.len()));
    let checked = check(message, addresses.len(), room)?;
    let count = checked.fields.metrics as usize;
    put_addresses(list_in(message, checked.route), addresses);
    put_metrics(message, count, kinds, flags, values);
    Ok(checked.fields)
}
