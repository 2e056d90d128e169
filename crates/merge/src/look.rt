// The first look at a list that has no fault.
ghost use Rattle.std.specs.Prelude.{◌≡◌, false, cond, leb};
ghost use Rattle.loss_list.specs.Expand.{items};
ghost use Rattle.loss_list.specs.Walk.{IsSound};
ghost use Rattle.merge.specs.Walk.{Sees};

use super::items::items_from;
use loss_list::Cell;
use refusal::Refusal;
use ring::RingNumber;
use seq_number::SeqNumber;

// The numbers that stand fewer steps than this after the oldest are the window.
pub(crate) const WINDOW: u32 = SeqNumber::MAX_DIFF;

// Whether items that stand in turn so far still do with one more.
fn in_turn(ordered: bool, before: u32, from: u32) -> bool
    ensures { result ≡ cond (leb before from) ordered false }
{
    before <= from && ordered
}

// Looks at every item up to the first with a number outside the window, which it refuses. Else it tells whether each begins no earlier than the one before.
// A range that begins before the oldest ends past the window, since its steps are added to those of its first number.
// That the list has no fault is a clause, and no `Judged`: `check`, which has one order of refusals for words and for bytes, is handed an answer alone.
pub(crate) fn look<C: Cell>(cells: &[C], oldest: u32) -> Result<bool, Refusal>
    requires { IsSound (items 0 (C.words cells.now)) }
    ensures { Sees oldest (C.words cells.now) result }
{
    let mut ordered = true;
    let mut before: u32 = 0;
    for (i, span) in items_from(cells, oldest, 0) {
        if WINDOW <= span.to {
            return Err(Refusal::OutsideWindow(i));
        }
        ordered = in_turn(ordered, before, span.from);
        before = span.from;
    }
    Ok(ordered)
}
