// The library that a user links: the public calls under C names. Each returns document 01's number and stores the other numbers in `numbers`.
#![tactic(auto)]

ghost use Rattle.std.specs.Prelude.{◌≡◌, length};
ghost use Rattle.model.specs.Calls.{check_profile, read_include, write_list, build_tree};
ghost use Rattle.buffers.specs.Capacity.{least4};
ghost use Rattle.calculator.specs.Exports.{ReadExport, WriteExport, TreeExport};
ghost use Rattle.request.specs.Bits.{limits_of_bits};
ghost use Rattle.request.specs.CheckedRequest.{request_of};

use call_numbers::{tell_read, tell_tree, tell_write};
use list_reader::read::read_include;
use list_writer::writer::write_list;
use model::DomainIndex;
use profile_check::check_profile;
use request::limits::asked_of;
use tree_fields::tree_numbers;

pub mod messages;
pub mod paths;

// numbers: place
#[unsafe(no_mangle)]
pub extern "C" fn yq_check_profile(profile: &[u8], numbers: &mut [u32; 1]) -> u32
    ensures { (result ≡ (check_profile profile.now).answer) × (numbers.new ≡ (check_profile profile.now).others) }
{
    match check_profile(profile) {
        Ok(()) => {
            *numbers = [0];
            0
        }
        Err(r) => {
            *numbers = [r.place];
            r.number
        }
    }
}

// numbers: place, how many domains, how many bytes of EXRS
#[unsafe(no_mangle)]
pub extern "C" fn yq_read_include(
    profile: &[u8],
    ingress: u16,
    include: &[u8],
    domains: &mut [u16],
    pinned: &mut [u8],
    pins: &mut [u32],
    exrs_counts: &mut [u32],
    exrs: &mut [u8],
    numbers: &mut [u32; 3],
) -> u32
    ensures { ReadExport (read_include profile.now ingress include.now (least4 domains.old pinned.old pins.old exrs_counts.old) (length exrs.old)) domains.old pinned.old pins.old exrs_counts.old exrs.old result numbers.new domains.new pinned.new pins.new exrs_counts.new exrs.new }
{
    let answer = read_include(
        profile,
        DomainIndex(ingress),
        include,
        domains,
        pinned,
        pins,
        exrs_counts,
        exrs,
    );
    tell_read(answer, numbers)
}

// numbers: place, how many bytes
#[unsafe(no_mangle)]
pub extern "C" fn yq_write_list(
    profile: &[u8],
    domains: &[u16],
    pinned: &[u8],
    pins: &[u32],
    exrs_counts: &[u32],
    exrs: &[u8],
    out: &mut [u8],
    numbers: &mut [u32; 2],
) -> u32
    ensures { WriteExport (write_list profile.now domains.now pinned.now pins.now exrs_counts.now exrs.now (length out.old)) out.old result numbers.new out.new }
{
    let answer = write_list(profile, domains, pinned, pins, exrs_counts, exrs, out);
    tell_write(answer, numbers)
}

// numbers: place, how many entries, tally, round
#[unsafe(no_mangle)]
pub extern "C" fn yq_tree(
    profile: &[u8],
    ingress: u16,
    source: u32,
    destination: u32,
    include: &[u8],
    exclude: &[u8],
    bandwidth_bits: u32,
    bound_counts: bool,
    bound_bits: u32,
    level: &mut [u32],
    address: &mut [u32],
    reachable: &mut [u8],
    cost: &mut [u32],
    numbers: &mut [u32; 4],
) -> u32
    ensures { TreeExport (build_tree (request_of profile.now ingress source destination include.now exclude.now (limits_of_bits bandwidth_bits bound_counts bound_bits)) (least4 level.old address.old reachable.old cost.old)) level.old address.old reachable.old cost.old result numbers.new level.new address.new reachable.new cost.new }
{
    let asked = asked_of(
        ingress,
        source,
        destination,
        bandwidth_bits,
        bound_counts,
        bound_bits,
    );
    let answer = tree_numbers(
        profile, asked, include, exclude, level, address, reachable, cost,
    );
    tell_tree(answer, numbers)
}
