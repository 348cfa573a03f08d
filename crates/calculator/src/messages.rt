// PCEP messages under C names: reading a PCReq, the calls through one, writing and reading a PCRep.
ghost use Rattle.std.specs.Prelude.{length};
ghost use Rattle.pcep_model.specs.Pcreq.{pcreq_tree, pcreq_first, pcreq_next};
ghost use Rattle.pcep_model.specs.Pcrep.{apart, write_pcrep};
ghost use Rattle.pcep_reply_writer.specs.Writing.{reply_of};
ghost use Rattle.buffers.specs.Capacity.{least4};
ghost use Rattle.calculator.specs.Exports.{WriteExport, TreeExport, PathExport, PcreqExport, PcrepExport};

use call_numbers::{tell_pcrep, tell_pcreq, tell_tree, tell_write};
use model::DomainIndex;
use path_answers::numbers::tell;
use pcep_reply_reader::read_pcrep;
use pcep_reply_writer::write_pcrep;
use pcep_request_calls::{pcreq_first, pcreq_next, pcreq_tree};
use pcep_request_reader::read_pcreq;

// numbers: place, request-ID, RP's flags, source, destination, bits of the bandwidth, METRICs, then offset and length of each list
#[unsafe(no_mangle)]
pub extern "C" fn yq_read_pcreq(
    message: &[u8],
    kinds: &mut [u8],
    flags: &mut [u8],
    values: &mut [u32],
    numbers: &mut [u32; 11],
) -> u32
    ensures { PcreqExport message.now kinds.old flags.old values.old result numbers.new kinds.new flags.new values.new }
{
    let answer = read_pcreq(message, kinds, flags, values);
    tell_pcreq(answer, numbers)
}

// numbers: as for yq_tree
#[unsafe(no_mangle)]
pub extern "C" fn yq_pcreq_tree(
    profile: &[u8],
    ingress: u16,
    message: &[u8],
    level: &mut [u32],
    address: &mut [u32],
    reachable: &mut [u8],
    cost: &mut [u32],
    numbers: &mut [u32; 4],
) -> u32
    ensures { TreeExport (pcreq_tree profile.now ingress message.now (least4 level.old address.old reachable.old cost.old)) level.old address.old reachable.old cost.old result numbers.new level.new address.new reachable.new cost.new }
{
    let answer = pcreq_tree(
        profile,
        DomainIndex(ingress),
        message,
        level,
        address,
        reachable,
        cost,
    );
    tell_tree(answer, numbers)
}

// numbers: as for yq_first
#[unsafe(no_mangle)]
pub extern "C" fn yq_pcreq_first(
    profile: &[u8],
    ingress: u16,
    message: &[u8],
    path: &mut [u32],
    numbers: &mut [u32; 4],
) -> u32
    ensures { PathExport (pcreq_first profile.now ingress message.now (length path.old)) path.old result numbers.new path.new }
{
    let answer = pcreq_first(profile, DomainIndex(ingress), message, path);
    tell(answer, numbers)
}

// numbers: as for yq_first
#[unsafe(no_mangle)]
pub extern "C" fn yq_pcreq_next(
    profile: &[u8],
    ingress: u16,
    message: &[u8],
    given: &[u32],
    path: &mut [u32],
    numbers: &mut [u32; 4],
) -> u32
    ensures { PathExport (pcreq_next profile.now ingress message.now given.now (length path.old)) path.old result numbers.new path.new }
{
    let answer = pcreq_next(profile, DomainIndex(ingress), message, given, path);
    tell(answer, numbers)
}

// numbers: place, how many bytes
#[unsafe(no_mangle)]
pub extern "C" fn yq_write_pcrep(
    request_id: u32,
    rp_flags: u32,
    found: bool,
    addresses: &[u32],
    nature: u8,
    c_flag: bool,
    kinds: &[u8],
    flags: &[u8],
    values: &[u32],
    out: &mut [u8],
    numbers: &mut [u32; 2],
) -> u32
    ensures { WriteExport (write_pcrep (reply_of request_id rp_flags found addresses.now nature c_flag kinds.now flags.now values.now) (apart kinds.now flags.now values.now) (length out.old)) out.old result numbers.new out.new }
{
    let answer = write_pcrep(
        request_id, rp_flags, found, addresses, nature, c_flag, kinds, flags, values, out,
    );
    tell_write(answer, numbers)
}

// numbers: place, request-ID, RP's flags, found, nature of issue, C, addresses, METRICs
#[unsafe(no_mangle)]
pub extern "C" fn yq_read_pcrep(
    message: &[u8],
    addresses: &mut [u32],
    kinds: &mut [u8],
    flags: &mut [u8],
    values: &mut [u32],
    numbers: &mut [u32; 8],
) -> u32
    ensures { PcrepExport message.now addresses.old kinds.old flags.old values.old result numbers.new addresses.new kinds.new flags.new values.new }
{
    let answer = read_pcrep(message, addresses, kinds, flags, values);
    tell_pcrep(answer, numbers)
}
