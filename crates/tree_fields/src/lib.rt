// A request's tree in numbers: every check before 34, the tree worked out in the round that applies, and 34; and its fields in four lent buffers.
#![tactic(auto)]

ghost use Rattle.std.specs.Prelude.{◌≡◌, ◌≤◌, ltb, length};
ghost use Rattle.model.specs.Profile.{layout_in};
ghost use Rattle.model.specs.Calls.{build_tree};
ghost use Rattle.laws.specs.Lists.{lists_of};
ghost use Rattle.request.specs.CheckedRequest.{request_for};
ghost use Rattle.request.specs.Query.{Ready};
ghost use Rattle.tree_levels.specs.Laid.{RoomIn};
ghost use Rattle.buffers.specs.Capacity.{least4};
ghost use Rattle.tree_fields.specs.TreeResult.{told_by, tree_for, TreeResultIs, TreeIn};

use crate::put::{put_addresses, put_costs, put_levels, put_marks};
use buffers::lesser;
use model::{BuiltTree, Reason, Refusal, Round};
use profile_records::layout::layout_in;
use refusal::refuse_if;
use request::{Asked, Query, check_request};
use tree_levels::Levels;
use tree_rounds::settle;

pub mod put;

// A tree in numbers: what is told of it, and how many places its entries have.
#[derive(Clone, Copy)]
pub struct TreeResult {
    pub built: BuiltTree,
    pub places: usize,
}

// A tree of so many entries is told, or that there is too little room for it.
fn told(
    count: usize,
    places: usize,
    tally: usize,
    round: Round,
    room: usize,
) -> Result<TreeResult, Refusal>
    requires { (count ≤ 241) × (tally ≤ 6000) }
    ensures { result ≡ told_by (ltb room count) count places tally round }
{
    refuse_if(room < count, Reason::LittleRoom, 0)?;
    Ok(TreeResult {
        built: BuiltTree {
            entries: count as u32,
            tally: tally as u32,
            round,
        },
        places,
    })
}

// The tree of a query in the round that applies, and whether there is room for it.
fn solve_query(
    profile: &[u8],
    include: &[u8],
    exclude: &[u8],
    q: Query,
    room: usize,
    levels: &mut Levels,
    reaches: &mut [u32; 242],
) -> Result<TreeResult, Refusal>
    requires ready { Ready (layout_in profile.now) profile.now (lists_of include.now exclude.now) q }
    requires addresses_len { RoomIn levels.old × (length reaches.old ≡ 242) }
    ensures { TreeResultIs (tree_for profile.now (lists_of include.now exclude.now) q room) room levels.new.addresses reaches.new levels.new.starts result }
{
    let layout = layout_in(profile);
    let settled = settle(profile, layout, include, exclude, q, levels, reaches);
    let places = settled.query.count;
    let round = settled.query.round;
    told(levels.starts[places], places, settled.tally, round, room)
}

// The tree of a request in numbers: every check before 34, the tree, and 34.
pub fn solve(
    profile: &[u8],
    asked: Asked,
    include: &[u8],
    exclude: &[u8],
    room: usize,
    levels: &mut Levels,
    reaches: &mut [u32; 242],
) -> Result<TreeResult, Refusal>
    requires { RoomIn levels.old × (length reaches.old ≡ 242) }
    ensures { TreeResultIs (build_tree (request_for profile.now asked include.now exclude.now) room) room levels.new.addresses reaches.new levels.new.starts result }
{
    let q = check_request(profile, asked, include, exclude)?;
    solve_query(profile, include, exclude, q, room, levels, reaches)
}

// The tree's fields in four lent buffers. On a refusal they keep what they held.
pub fn tree_numbers(
    profile: &[u8],
    asked: Asked,
    include: &[u8],
    exclude: &[u8],
    level: &mut [u32],
    address: &mut [u32],
    reachable: &mut [u8],
    cost: &mut [u32],
) -> Result<BuiltTree, Refusal>
    ensures { TreeIn (build_tree (request_for profile.now asked include.now exclude.now) (least4 level.old address.old reachable.old cost.old)) level.old address.old reachable.old cost.old result level.new address.new reachable.new cost.new }
{
    let mut levels = Levels::empty();
    let mut reaches = [0u32; 242];
    let room = lesser(
        lesser(level.len(), address.len()),
        lesser(reachable.len(), cost.len()),
    );
    let solved = solve(
        profile,
        asked,
        include,
        exclude,
        room,
        &mut levels,
        &mut reaches,
    )?;
    let n = solved.built.entries as usize;
    put_levels(&levels.starts, solved.places, level);
    put_addresses(&levels.addresses, n, address);
    put_marks(&reaches, n, reachable);
    put_costs(&reaches, n, cost);
    Ok(solved.built)
}
