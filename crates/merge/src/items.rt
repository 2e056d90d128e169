// The items of a list, one after the other.
ghost use Rattle.std.specs.Prelude.{◌≡◌, ◌-◌, ◌<◌, length, drop};
ghost use Rattle.std.specs.Iterator.{at_most};
ghost use Rattle.loss_list.specs.Expand.{items};
ghost use Rattle.loss_list.specs.Walk.{IsSound};
ghost use Rattle.spans.specs.Spans.{ItemAt};
ghost use Rattle.merge.specs.Walk.{GivesItem};

use loss_list::{Cell, FLAG};
use spans::{Span, span_of};

// The item at place i. The next word is read for a range alone: so the next item's place hangs on a branch that is foreseen, and not on the word.
fn span_at<C: Cell>(cells: &[C], oldest: u32, i: usize) -> Span
    requires in_list { i < length (C.words cells.now) }
    requires in_range { i < usize.MAX }
    requires sound { IsSound (items i (drop i (C.words cells.now))) }
    ensures { ItemAt oldest (C.words cells.now) i result }
{
    let this = C::word(cells, i);
    if this < FLAG {
        return span_of(oldest, this, 0);
    }
    span_of(oldest, this, C::word(cells, i + 1))
}

// The items of a list that has no fault, from a place on, each with its place. The oldest number goes with each list, since it is one for both.
#[derive(Drop)]
pub(crate) struct Items<'a, C> {
    cells: &'a [C],
    oldest: u32,
    place: usize,
}

pub(crate) fn items_from<C: Cell>(cells: &[C], oldest: u32, place: usize) -> Items<'_, C>
    ensures { result ≡ record { cells = cells.entry; oldest = oldest; place = place } }
{
    Items {
        cells,
        oldest,
        place,
    }
}

impl<'a, C: Cell> Iterator for Items<'a, C> {
    type Item = (usize, Span);

    ghost can_next = { λ s. IsSound (items s.place (drop s.place (C.words s.cells.now))) };

    ghost next_gives = { GivesItem C.words };

    ghost remaining = { λ s. at_most (length (C.words s.cells.now) - s.place) };

    fn next(&mut self) -> Option<(usize, Span)> {
        let place = self.place;
        if C::count(self.cells) <= place {
            return None;
        }
        let span = span_at(self.cells, self.oldest, place);
        self.place = place + span.words;
        Some((place, span))
    }
}
