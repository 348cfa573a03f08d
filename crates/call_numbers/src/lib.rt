// The numbers of each answer: the answer's own is told, the place and what goes with it are stored in the order of the C interface.
#![tactic(auto)]

ghost use Rattle.std.specs.Prelude.{◌≡◌};
ghost use Rattle.model.specs.Answers.{numbers_of_read, numbers_of_write, numbers_of_tree};
ghost use Rattle.pcep_model.specs.Pcreq.{numbers_of_pcreq};
ghost use Rattle.pcep_model.specs.Pcrep.{numbers_of_pcrep, mark as mark_of};

use model::{BuiltTree, ReadCounts, Refusal};
use path_answers::numbers::round_number;
use pcep_model::{PcrepFields, PcreqFields};

// place, how many domains, how many bytes of EXRS
pub fn tell_read(answer: Result<ReadCounts, Refusal>, numbers: &mut [u32; 3]) -> u32
    ensures { (result ≡ (numbers_of_read answer).answer) × (numbers.new ≡ (numbers_of_read answer).others) }
{
    match answer {
        Ok(read) => {
            *numbers = [0, read.count, read.exrs];
            0
        }
        Err(r) => {
            *numbers = [r.place, 0, 0];
            r.number
        }
    }
}

// place, how many bytes
pub fn tell_write(answer: Result<u32, Refusal>, numbers: &mut [u32; 2]) -> u32
    ensures { (result ≡ (numbers_of_write answer).answer) × (numbers.new ≡ (numbers_of_write answer).others) }
{
    match answer {
        Ok(length) => {
            *numbers = [0, length];
            0
        }
        Err(r) => {
            *numbers = [r.place, 0];
            r.number
        }
    }
}

// place, how many entries, tally, round
pub fn tell_tree(answer: Result<BuiltTree, Refusal>, numbers: &mut [u32; 4]) -> u32
    ensures { (result ≡ (numbers_of_tree answer).answer) × (numbers.new ≡ (numbers_of_tree answer).others) }
{
    match answer {
        Ok(tree) => {
            *numbers = [0, tree.entries, tree.tally, round_number(tree.round)];
            0
        }
        Err(r) => {
            *numbers = [r.place, 0, 0, 0];
            r.number
        }
    }
}

// place, request-ID, RP's flags, source, destination, bandwidth, how many METRICs, then where both lists start and how long they are
pub fn tell_pcreq(answer: Result<PcreqFields, Refusal>, numbers: &mut [u32; 11]) -> u32
    ensures { (result ≡ (numbers_of_pcreq answer).answer) × (numbers.new ≡ (numbers_of_pcreq answer).others) }
{
    match answer {
        Ok(f) => {
            let include = f.include;
            let exclude = f.exclude;
            *numbers = [
                0,
                f.id,
                f.flags,
                f.source.0,
                f.destination.0,
                f.bandwidth,
                f.metrics,
                include.start,
                include.size,
                exclude.start,
                exclude.size,
            ];
            0
        }
        Err(r) => {
            *numbers = [r.place, 0, 0, 0, 0, 0, 0, 0, 0, 0, 0];
            r.number
        }
    }
}

// 1 for what is so, 0 for what isn't.
fn mark(b: bool) -> u32
    ensures { result ≡ mark_of b }
{
    b as u32
}

// place, request-ID, RP's flags, found, nature of issue, C, how many addresses and METRICs
pub fn tell_pcrep(answer: Result<PcrepFields, Refusal>, numbers: &mut [u32; 8]) -> u32
    ensures { (result ≡ (numbers_of_pcrep answer).answer) × (numbers.new ≡ (numbers_of_pcrep answer).others) }
{
    match answer {
        Ok(f) => {
            let found = mark(f.found);
            let c = mark(f.c);
            let nature = f.nature as u32;
            *numbers = [0, f.id, f.flags, found, nature, c, f.addresses, f.metrics];
            0
        }
        Err(r) => {
            *numbers = [r.place, 0, 0, 0, 0, 0, 0, 0];
            r.number
        }
    }
}
