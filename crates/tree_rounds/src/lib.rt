// The rounds of a query (RFC 5521's desired exclusions): the tree with every exclusion, and, where that has no admissible path and some exclusion
// has X set, the tree with only those of X clear.
#![tactic(auto)]

ghost use Rattle.std.specs.Prelude.{◌≡◌, true, not, ◌&&◌, ◌≤◌, length};
ghost use Rattle.model.specs.Verdict.{Pass};
ghost use Rattle.model.specs.declared.ListKind.TheVariants.{Exclude};
ghost use Rattle.model.specs.Exclusion.{some_desired};
ghost use Rattle.model.specs.Floats.{in_range};
ghost use Rattle.model.specs.Subobject.{form_verdict};
ghost use Rattle.laws.specs.Exrs.{Stretch};
ghost use Rattle.list_exclusion.specs.Place.{all_there};
ghost use Rattle.laws.specs.Lists.{lists_of};
ghost use Rattle.profile_records.specs.Layout.{layout_of, SoundLayout};
ghost use Rattle.tree_levels.specs.Laid.{RoomIn};
ghost use Rattle.request.specs.Query.{last_named, Ready};
ghost use Rattle.tree_rounds.specs.Kept.{kept_by};
ghost use Rattle.tree_rounds.specs.ChosenRound.{ChosenRoundIs};

use bound::keeps_bound;
use list_exclusion::place::some_desired_there;
use model::{Limits, Round};
use profile_records::layout::Layout;
use request::{Query, in_round};
use tree_levels::{Levels, lay_out};
use tree_reaches::UNREACHABLE;
use tree_vspt::{LaidTree, fill_tree};

// A query in the round that applies, and how many hop records were examined in all rounds (the tally).
#[derive(Clone, Copy)]
pub struct ChosenRound {
    pub query: Query,
    pub tally: usize,
}

// The source reaches the destination, and its least cost keeps the bound.
pub fn admissible(limits: Limits, here: u32) -> bool
    requires { limits.bounded ≡ true → in_range limits.bound ≡ true }
    ensures { result ≡ kept_by limits here }
{
    here != UNREACHABLE && keeps_bound(limits, here)
}

// A second round is needed: the first has no admissible path, by the source's number, and some exclusion has X set, in the exclude list or in an EXRS. All EXRS stand
// before the subobject that named the last domain.
fn needs_second(include: &[u8], exclude: &[u8], q: Query, here: u32) -> bool
    requires exclude_value { (form_verdict Exclude exclude.now ≡ Pass) × (q.limits.bounded ≡ true → in_range q.limits.bound ≡ true) }
    requires le_count { (1 ≤ q.count) × (q.count ≤ 16) × (length q.stops ≡ 16) × Stretch include.now 0 (last_named q) × (length include.now ≤ 1024) }
    ensures { result ≡ some_desired (all_there (lists_of include.now exclude.now) 0 (last_named q)) && not (kept_by q.limits here) }
{
    let last = q.stops[q.count - 1].named as usize;
    !admissible(q.limits, here) && some_desired_there(include, exclude, 0, last)
}

// The tree of a query in the round that applies: its places' entries, laid out once, and how each reaches the destination. The second round's numbers
// are written over the first's.
pub fn settle(
    s: &[u8],
    layout: Layout,
    include: &[u8],
    exclude: &[u8],
    q: Query,
    levels: &mut Levels,
    reaches: &mut [u32; 242],
) -> ChosenRound
    requires sound_layout { SoundLayout (layout_of layout) × Ready (layout_of layout) s.now (lists_of include.now exclude.now) q }
    requires room { RoomIn levels.old × (length reaches.old ≡ 242) }
    ensures { ChosenRoundIs (layout_of layout) s.now (lists_of include.now exclude.now) q levels.new.addresses reaches.new levels.new.starts levels.new.firsts levels.new.lasts result }
{
    let examined = lay_out(
        s,
        layout,
        &q.stops,
        q.count,
        q.source,
        q.destination,
        levels,
    );
    let first = in_round(q, Round::First);
    let laid = LaidTree {
        profile: s,
        layout,
        include,
        exclude,
        query: first,
        levels: &*levels,
    };
    fill_tree(&laid, reaches);
    if !needs_second(include, exclude, q, reaches[0]) {
        return ChosenRound {
            query: first,
            tally: examined,
        };
    }
    let second = in_round(q, Round::Second);
    let again = LaidTree {
        query: second,
        ..laid
    };
    fill_tree(&again, reaches);
    ChosenRound {
        query: second,
        tally: examined + examined,
    }
}
