// The walk over two lists: pieces that meet are one run.
ghost use Rattle.std.specs.Prelude.{◌≡◌, ◌^◌, ◌<◌, ◌≤◌};
ghost use Rattle.ring.specs.Ring.{half};
ghost use Rattle.merging.specs.Steps.{either};
ghost use Rattle.merge.specs.Walk.{Whole, Ready, nearest, Walking, Stood, Extends, RunsOn};

use super::find::{Found, Side, at_first, find};
use super::lists::{Lists, Looked};
use super::marks::{leading, mark};
use loss_list::Cell;

// The next piece of each list, and where the nearer begins.
#[derive(Clone, Copy)]
pub(crate) struct Walk {
    pub(crate) from: u32,
    pub(crate) first: Found,
    pub(crate) second: Found,
}

// The walk that goes on from two pieces.
#[tactic(auto, unfolding(crate::specs::Walk::nearest))]
fn walk_of(first: Found, second: Found) -> Walk
    ensures { result ≡ record { from = nearest first.piece second.piece; first = first; second = second } }
{
    let one = first.piece;
    let other = second.piece;
    if other.from < one.from {
        return Walk {
            from: other.from,
            first,
            second,
        };
    }
    Walk {
        from: one.from,
        first,
        second,
    }
}

// How many numbers are marked at a time.
const MARKS: usize = 512;

// A run, and the walk after it.
#[derive(Clone, Copy)]
pub(crate) struct Run {
    pub(crate) from: u32,
    pub(crate) to: u32,
    pub(crate) next: Walk,
}

impl<'a, C: Cell> Lists<'a, C> {
    // Where a run ends, all of which up to `end` is known, with a piece that ends at `to`: after the piece, and in disorder after what marks show. A run of one piece is not marked for.
    fn reach(&self, ordered: bool, from: u32, end: u32, to: u32) -> u32
        requires first_whole { Whole self.now.oldest (C.words self.now.first.now) }
        requires second_whole { Whole self.now.oldest (C.words self.now.second.now) }
        requires end_bound { (end ≤ half 31) × (to < half 31) }
        ensures { Extends (either self.now.oldest (C.words self.now.first.now) (C.words self.now.second.now)) end to result }
    {
        let next = end.max(to + 1);
        if ordered {
            return next;
        }
        if end == from {
            return next;
        }
        let mut seen = [false; MARKS];
        mark(self.first, self.oldest, next, &mut seen);
        mark(self.second, self.oldest, next, &mut seen);
        next + leading(&seen) as u32
    }
}

impl<'a, C: Cell> Looked<'a, C> {
    // The walk from the oldest number on.
    pub(crate) fn begin(&self) -> Walk
        requires { Ready self.now.lists.oldest (C.words self.now.lists.first.now) (C.words self.now.lists.second.now) self.now.left self.now.right }
        ensures { Walking self.now.lists.oldest (C.words self.now.lists.first.now) (C.words self.now.lists.second.now) self.now.left self.now.right 0 result }
    {
        let lists = self.lists;
        walk_of(
            find(lists.first, lists.oldest, at_first(self.left), 0),
            find(lists.second, lists.oldest, at_first(self.right), 0),
        )
    }

    // The run that begins with the walk's nearer piece.
    #[tactic(auto, unfolding(crate::specs::Walk::nearest))]
    pub(crate) fn run_from(&self, walk: Walk) -> Run
        requires stood { Stood self.now.lists.oldest (C.words self.now.lists.first.now) (C.words self.now.lists.second.now) self.now.left self.now.right walk }
        requires from_bound { walk.from < 2 ^ 31 }
        ensures { RunsOn self.now.lists.oldest (C.words self.now.lists.first.now) (C.words self.now.lists.second.now) self.now.left self.now.right walk result }
    {
        let ordered = self.left && self.right;
        // A copy, so that what each piece asks of the lists stays in registers.
        let lists = self.lists;
        let from = walk.from;
        let mut one = walk.first;
        let mut other = walk.second;
        let mut end = from;
        'pieces: loop {
            if one.piece.from <= end {
                let side = Side {
                    ordered: self.left,
                    place: one.place,
                };
                end = lists.reach(ordered, from, end, one.piece.to);
                one = find(lists.first, lists.oldest, side, end);
            } else {
                if end < other.piece.from {
                    let next = walk_of(one, other);
                    return Run {
                        from,
                        to: end - 1,
                        next,
                    };
                }
                let side = Side {
                    ordered: self.right,
                    place: other.place,
                };
                end = lists.reach(ordered, from, end, other.piece.to);
                other = find(lists.second, lists.oldest, side, end);
            }
        }
    }
}
