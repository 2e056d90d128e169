// The items of a list, looked at one by one: whether each covers the number, and which is the first that does.
ghost use Rattle.std.specs.Prelude.{◌≡◌, ◌^◌, ◌<◌};
ghost use Rattle.loss_list.specs.Expand.{items};
ghost use Rattle.why_lost.specs.WhyLost.{searched};
ghost use Rattle.why_lost.specs.Steps.{look_of};

use loss_expansion::Judged;
use loss_list::{Cell, FLAG};
use ring::RingNumber;
use seq_number::SeqNumber;

// The item that a word begins: whether it covers the number, and how many words it takes.
#[derive(Clone, Copy)]
struct Look {
    covers: bool,
    words: usize,
}

// The item that begins with `word`, where `next` follows it.
fn item_of(word: u32, next: u32, number: u32) -> Look
    ensures { result ≡ look_of word next number }
{
    if word < FLAG {
        return Look {
            covers: word == number,
            words: 1,
        };
    }
    let first = SeqNumber(word - FLAG);
    let on = SeqNumber(number).distance(first);
    let steps = SeqNumber(next).distance(first);
    Look {
        covers: on <= steps,
        words: 2,
    }
}

// Looks for the number in a judged list. Past the last word there is 0, and nothing looks at it.
pub(crate) fn search<C: Cell>(judged: &Judged<'_, C>, number: u32) -> Option<usize>
    requires number_bound { number < 2 ^ 31 }
    ensures { result ≡ searched (items 0 (C.words judged.now.list.now)) number }
{
    let list = judged.list;
    let mut found = None;
    let mut i: usize = 0;
    // By while: both words are read at each place, whatever stands there, and an iterator for this loop alone would be as long again.
    while i < C::count(list) {
        let item = item_of(C::word(list, i), C::word(list, i + 1), number);
        found = found.or(item.covers.then_some(i));
        i += item.words;
    }
    found
}
