// What the calls answer as lines of text on standard output. No contract can say what is written: these functions are proved to be safe and to end, and a program over them is held to its stored output. Each gives the error of a write that failed, and writes nothing after it.
#![tactic(auto)]

ghost use Rattle.std.specs.Prelude.{◌≡◌};
ghost use Rattle.std.specs.Float.Ieee.{to_bits, binary32};

use model::{BuiltTree, NodeAddress, PathAnswer, Refusal, TreeEntry};
use path_answers::numbers::round_number;
use std::io;

// Bytes as they are.
pub fn text(rt: &impl Print, bytes: &[u8]) -> io::Result<()> {
    rt.write_all(bytes)
}

// How many entries a tree has, how many hops were examined for it, and in which round it was built.
pub fn print_tally(rt: &impl Print, entries: u32, tally: u32, round: u32) -> io::Result<()> {
    println!(rt; "tree: {entries} entries, {tally} hops examined, round {round}")
}

// What a call that is refused answers.
pub fn print_refusal(rt: &impl Print, call: &[u8], refusal: u32, place: u32) -> io::Result<()> {
    text(rt, call)?;
    println!(rt; ": refused, number {refusal}, place {place}")
}

// Addresses from a source to a destination.
pub fn print_path(rt: &impl Print, before: &[u8], path: [u32; 4]) -> io::Result<()> {
    text(rt, before)?;
    let [a, b, c, d] = path.map(|address| NodeAddress(address));
    print!(rt; "{a} {b} {c} {d}")
}

// What a call for a path answers: its five numbers, and the path where there is one. Whether there is one.
pub fn print_answer(
    rt: &impl Print,
    call: &[u8],
    numbers: [u32; 5],
    path: [u32; 4],
) -> io::Result<bool> {
    let [number, place, total, float, round] = numbers;
    if number >= 10 {
        print_refusal(rt, call, number, place)?;
        return Ok(false);
    }
    text(rt, call)?;
    match number {
        0 => {
            print_path(rt, b": ", path)?;
            println!(rt; ", total {total} ({float:08x}), round {round}")?;
        }
        1 => println!(rt; ": no path")?,
        _ => println!(rt; ": end")?,
    }
    Ok(number == 0)
}

// The tally of a tree that was built.
pub fn print_tree(rt: &impl Print, tree: BuiltTree) -> io::Result<()> {
    print_tally(rt, tree.entries, tree.tally, round_number(tree.round))
}

// One entry of a tree.
pub fn print_entry(rt: &impl Print, entry: TreeEntry) -> io::Result<()> {
    let TreeEntry {
        level,
        address,
        reachable,
        cost,
    } = entry;
    if reachable {
        println!(rt; "  level {level}: {address}, reachable, cost {cost}")
    } else {
        println!(rt; "  level {level}: {address}, not reachable")
    }
}

// What a call answers that is refused.
pub fn print_refused(rt: &impl Print, call: &str, refusal: Refusal) -> io::Result<()> {
    let Refusal { number, place } = refusal;
    println!(rt; "{call}: refused, number {number}, place {place}")
}

// The addresses of a path, each behind a blank.
pub fn print_addresses(rt: &impl Print, path: &[u32]) -> io::Result<()> {
    for address in path {
        let node = NodeAddress(*address);
        print!(rt; " {node}")?;
    }
    Ok(())
}

// The bits of a float; those of a NaN, which has none of its own, are the usual ones.
fn bits_of(float: f32) -> u32
    ensures { result ≡ to_bits binary32 float }
{
    if float.is_nan() {
        return 0x7FC00000;
    }
    f32::to_bits(float)
}

// The same of an answer as first and next give it, with the addresses of its path.
pub fn print_reply(
    rt: &impl Print,
    call: &str,
    answer: Result<PathAnswer, Refusal>,
    path: &[u32],
) -> io::Result<bool> {
    match answer {
        Ok(
            PathAnswer::Found {
                total,
                float,
                round,
            },
        ) => {
            let bits = bits_of(float);
            let round = round_number(round);
            print!(rt; "{call}:")?;
            print_addresses(rt, path)?;
            println!(rt; ", total {total} ({bits:08x}), round {round}")?;
            Ok(true)
        }
        Ok(PathAnswer::NoPath) => {
            println!(rt; "{call}: no path")?;
            Ok(false)
        }
        Ok(PathAnswer::End) => {
            println!(rt; "{call}: end")?;
            Ok(false)
        }
        Err(refusal) => {
            print_refused(rt, call, refusal)?;
            Ok(false)
        }
    }
}
