// A tree in entries that are lent: five, as many as a tree of profile W has at most.
ghost use Rattle.std.specs.Prelude.{replicate};
ghost use Rattle.model.specs.Calls.{build_tree};
ghost use Rattle.request.specs.CheckedRequest.{request_of};
ghost use Rattle.tree.specs.Trees.{TreeLent};

use model::{BuiltTree, DomainIndex, Limits, NodeAddress, Refusal, TreeEntry};
use tree::tree;

// The answer, and the entries as the call left them.
#[derive(Drop)]
pub struct LentTree {
    pub answer: Result<BuiltTree, Refusal>,
    pub entries: [TreeEntry; 5],
}

// The entries are lent to `tree` as a slice, and come back by value.
pub fn lent_tree(
    profile: &[u8],
    ingress: DomainIndex,
    source: NodeAddress,
    destination: NodeAddress,
    include: &[u8],
    exclude: &[u8],
    limits: Limits,
    empty: TreeEntry,
) -> LentTree
    ensures { TreeLent (build_tree (request_of profile.now ingress.0 source.0 destination.0 include.now exclude.now limits) 5) (replicate 5 empty) result.answer result.entries }
{
    let mut entries = [empty; 5];
    let answer = tree(
        profile,
        ingress,
        source,
        destination,
        include,
        exclude,
        limits,
        &mut entries,
    );
    LentTree { answer, entries }
}
