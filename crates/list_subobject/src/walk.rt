// A walk along a list keeps the list and its place in it together. The functions over it are thin: each takes the walk
// apart and leaves the work to a function on the slice and the number.
ghost use Rattle.std.specs.Prelude.{◌≡◌, ◌+◌};
ghost use Rattle.model.specs.Subobject.{length_at};
ghost use Rattle.list_subobject.specs.Items.{Readable, ItemAt};

use crate::item::{Item, item_at, next_at};

// The list, and the offset of a subobject in it.
#[derive(Clone, Copy)]
pub struct Walk<'a> {
    pub list: &'a [u8],
    pub at: usize,
}

// A walk at a place of a list.
#[inline(always)]
pub fn walk_from<'a>(list: &'a [u8], at: usize) -> Walk<'a>
    ensures { (result.list ≡ list.entry) × (result.at ≡ at) }
{
    Walk { list, at }
}

// The subobject at the walk's place, where the form is right.
#[inline(always)]
pub fn subobject_here<'a>(w: Walk<'a>) -> Item
    requires { Readable w.list.now w.at }
    ensures { ItemAt w.entry.list.now w.entry.at result }
{
    item_at(w.list, w.at)
}

// The walk past that subobject: the same list, at the place where the next one starts.
#[inline(always)]
pub fn moved_past<'a>(w: Walk<'a>) -> Walk<'a>
    requires { Readable w.list.now w.at }
    ensures { (result.list ≡ w.entry.list) × (result.at ≡ w.entry.at + length_at w.entry.list.now w.entry.at) }
{
    let at = next_at(w.list, w.at);
    Walk { list: w.list, at }
}

// The subobject at a place of a list, for callers that keep the list and the place themselves.
#[inline(always)]
pub fn subobject_at(list: &[u8], at: usize) -> Item
    requires { Readable list.now at }
    ensures { ItemAt list.now at result }
{
    subobject_here(walk_from(list, at))
}

// Where the subobject after the one at a place starts, for the same callers.
#[inline(always)]
pub fn next_after(list: &[u8], at: usize) -> usize
    requires { Readable list.now at }
    ensures { result ≡ at + length_at list.now at }
{
    let w = moved_past(walk_from(list, at));
    w.at
}
