// Prints what the calculator makes of document 01's profile W: the tree and the shortest paths of a request, then of one with a node excluded, of one whose exclusion of two
// nodes is only desired, and of one that is refused. The file `stdout` in the folder above is taken from documents 01 and 02 by hand, not from a run.
#![tactic(auto)]

use crate::cases::{
    A_LONGER_PATH, BACK, Case, DESIRED_WITHOUT_P_AND_Q, ONWARD, PROFILE_W, S, WITHOUT_Q, Z, asked,
    limits,
};
use crate::lent::lent_tree;
use model::{DomainIndex, NodeAddress, TreeEntry};
use path_calls::{first, next};
use printing::{print_addresses, print_entry, print_refused, print_reply, print_tree};
use std::io;

mod cases;
mod lent;

// The tree. On this profile it has at most five entries: S, P, Q, T and U.
fn show_tree(rt: &impl Print, case: Case) -> io::Result<()> {
    let lent = lent_tree(
        case.profile,
        DomainIndex(0),
        NodeAddress(S),
        NodeAddress(Z),
        case.include,
        case.exclude,
        limits(),
        TreeEntry {
            level: 0,
            address: NodeAddress(0),
            reachable: false,
            cost: 0,
        },
    );
    let entries = lent.entries;
    match lent.answer {
        Ok(tree) => {
            print_tree(rt, tree)?;
            for entry in entries.iter().take(tree.entries as usize) {
                print_entry(rt, *entry)?;
            }
            Ok(())
        }
        Err(refusal) => print_refused(rt, "tree", refusal),
    }
}

// The first path, into `path`; whether there is one.
fn show_first(rt: &impl Print, case: Case, path: &mut [u32; 4]) -> io::Result<bool> {
    let answer = first(case.profile, asked(), case.include, case.exclude, path);
    print_reply(rt, "first", answer, path)
}

// The path after a given list, into `path`; whether there is one.
fn show_next(
    rt: &impl Print,
    case: Case,
    given: &[u32; 4],
    path: &mut [u32; 4],
) -> io::Result<bool> {
    let answer = next(
        case.profile,
        asked(),
        case.include,
        case.exclude,
        given,
        path,
    );
    print_reply(rt, "next", answer, path)
}

// First, then next until there is no other. A proved loop has to end: this one makes at most eight calls, more than the profile has paths.
fn show_paths(rt: &impl Print, case: Case) -> io::Result<()> {
    let mut path = [0u32; 4];
    let mut more = show_first(rt, case, &mut path)?;
    for _ in 0..8 {
        if !more {
            break;
        }
        let given = path;
        more = show_next(rt, case, &given, &mut path)?;
    }
    Ok(())
}

// The path after one that isn't listed.
fn show_next_after(rt: &impl Print, case: Case) -> io::Result<()> {
    let mut path = [0u32; 4];
    print!(rt; "after")?;
    print_addresses(rt, &A_LONGER_PATH)?;
    println!(rt; "")?;
    show_next(rt, case, &A_LONGER_PATH, &mut path)?;
    Ok(())
}

fn show(rt: &impl Print, case: Case) -> io::Result<()> {
    let title = case.title;
    println!(rt; "{title}")?;
    show_tree(rt, case)?;
    show_paths(rt, case)?;
    show_next_after(rt, case)
}

fn show_requests(rt: &impl Print, profile: &[u8]) -> io::Result<()> {
    let onward = Case {
        title: "Profile W by AS 64497 and 64498",
        profile,
        include: &ONWARD,
        exclude: &[],
    };
    show(rt, onward)?;
    let without = Case {
        title: "\nThe same without 192.0.2.12",
        exclude: &WITHOUT_Q,
        ..onward
    };
    show(rt, without)?;
    let desired = Case {
        title: "\nThe same with the exclusion of 192.0.2.11 and 192.0.2.12 only desired",
        exclude: &DESIRED_WITHOUT_P_AND_Q,
        ..onward
    };
    show(rt, desired)?;
    let back = Case {
        title: "\nBy AS 64497 and back to 64496",
        include: &BACK,
        ..onward
    };
    show(rt, back)
}

fn main(rt: HostRuntime) -> io::Result<()> {
    show_requests(&rt, &PROFILE_W)
}
