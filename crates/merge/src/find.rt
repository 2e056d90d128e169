// The next piece of one list: the least number from a step on, and how far the item that has it reaches.
ghost use Rattle.std.specs.Prelude.{◌≡◌, false, cond, ◌≤◌, leb};
ghost use Rattle.ring.specs.Ring.{half};
ghost use Rattle.merge.specs.Walk.{at_first, begins_at, near_with, Stands, Finds};

use super::items::items_from;
use loss_list::{Cell, FLAG};

// Where a walk over a list stands: no item before this place has a number that is still to come. Of a list in disorder it is the first place throughout.
#[derive(Clone, Copy)]
pub(crate) struct Side {
    pub(crate) ordered: bool,
    pub(crate) place: usize,
}

// The walk over a list from its first place on.
pub(crate) fn at_first(ordered: bool) -> Side
    ensures { result ≡ at_first ordered }
{
    Side { ordered, place: 0 }
}

// A piece, in steps from the oldest number. One that begins past the ring is none: as a number it is compared like any other, where an Option would be a branch that none foresees.
#[derive(Clone, Copy)]
pub(crate) struct Piece {
    pub(crate) from: u32,
    pub(crate) to: u32,
}

pub(crate) const NONE: u32 = FLAG;

// Where an item begins from `at` on. Items in disorder lie before `at` or after it by no rule, so no branch should hang on it.
#[tactic(auto, unfolding(crate::specs::Walk::begins_at))]
fn begins(at: u32, from: u32, to: u32) -> u32
    ensures { result ≡ begins_at at from to }
{
    let start = from.max(at);
    if to < at { NONE } else { start }
}

impl Piece {
    // The nearer from `at` on, of this piece and that of an item.
    #[tactic(auto, unfolding(crate::specs::Walk::near_with))]
    fn with(self, at: u32, from: u32, to: u32) -> Piece
        ensures { result ≡ near_with self at from to }
    {
        let start = begins(at, from, to);
        if start < self.from {
            return Piece { from: start, to };
        }
        self
    }
}

// Whether a list that stands in order needs no look at later items.
fn stops(ordered: bool, at: u32, to: u32) -> bool
    ensures { result ≡ cond ordered (leb at to) false }
{
    ordered && at <= to
}

// What was found, and the place where to look for what comes after it. Whether the list stands in order goes beside the walk and not in it: a walk is copied at each run, and a flag in it would keep the copies out of registers.
#[derive(Clone, Copy)]
pub(crate) struct Found {
    pub(crate) piece: Piece,
    pub(crate) place: usize,
}

pub(crate) fn find<C: Cell>(cells: &[C], oldest: u32, side: Side, at: u32) -> Found
    requires stands { Stands oldest (C.words cells.now) at side }
    requires at_bound { at ≤ half 31 }
    ensures { Finds oldest (C.words cells.now) side.ordered at result }
{
    let mut near = Piece {
        from: NONE,
        to: NONE,
    };
    for (i, span) in items_from(cells, oldest, side.place) {
        near = near.with(at, span.from, span.to);
        if stops(side.ordered, at, span.to) {
            return Found {
                piece: near,
                place: i + span.words,
            };
        }
    }
    Found {
        piece: near,
        place: side.place,
    }
}
