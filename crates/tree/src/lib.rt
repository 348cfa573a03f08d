// The call `tree`: the backward tree of a request, its entries in what is lent. (Document 01, "Paths and the tree".)
#![tactic(auto)]

ghost use Rattle.std.specs.Prelude.{length};
ghost use Rattle.model.specs.Calls.{build_tree};
ghost use Rattle.request.specs.CheckedRequest.{request_of};
ghost use Rattle.tree.specs.Trees.{TableResultIs, TreeLent};

use model::{BuiltTree, DomainIndex, Limits, NodeAddress, Refusal, TreeEntry};
use request::Asked;
use tree_entries::{TreeTable, fill};
use tree_fields::put::put_levels;
use tree_fields::solve;
use tree_levels::Levels;

// A tree by value: what is told of it, and its entries.
#[derive(Clone, Copy)]
pub struct TableResult {
    pub built: BuiltTree,
    pub table: TreeTable,
}

// The tree's entries by value, for a caller with this much room.
pub fn build(
    profile: &[u8],
    ingress: DomainIndex,
    source: NodeAddress,
    destination: NodeAddress,
    include: &[u8],
    exclude: &[u8],
    limits: Limits,
    room: usize,
) -> Result<TableResult, Refusal>
    ensures { TableResultIs (build_tree (request_of profile.now ingress.0 source.0 destination.0 include.now exclude.now limits) room) room result }
{
    let mut levels = Levels::empty();
    let mut reaches = [0u32; 242];
    let asked = Asked {
        ingress,
        source,
        destination,
        limits,
    };
    let solved = solve(
        profile,
        asked,
        include,
        exclude,
        room,
        &mut levels,
        &mut reaches,
    )?;
    let mut level = [0u32; 241];
    put_levels(&levels.starts, solved.places, &mut level);
    Ok(TableResult {
        built: solved.built,
        table: TreeTable {
            level,
            addresses: levels.addresses,
            reaches,
        },
    })
}

// The tree in a lent slice of entries. On a refusal the slice keeps what it held.
pub fn tree(
    profile: &[u8],
    ingress: DomainIndex,
    source: NodeAddress,
    destination: NodeAddress,
    include: &[u8],
    exclude: &[u8],
    limits: Limits,
    entries: &mut [TreeEntry],
) -> Result<BuiltTree, Refusal>
    ensures { TreeLent (build_tree (request_of profile.now ingress.0 source.0 destination.0 include.now exclude.now limits) (length entries.old)) entries.old result entries.new }
{
    let made = build(
        profile,
        ingress,
        source,
        destination,
        include,
        exclude,
        limits,
        entries.len(),
    )?;
    fill(entries, made.table, made.built.entries as usize);
    Ok(made.built)
}
