// The items of a list, one by one: which stands at a place, and how many numbers those so far stand for.
ghost use Rattle.std.specs.Prelude.{◌≡◌, cond, [], ◌∷◌};
ghost use Rattle.loss_list.specs.Expand.{Sound};
ghost use Rattle.loss_steps.specs.Items.{Looked, head_of, tally_with, tallied};

use loss_list::{Cell, FLAG, LIMIT};
use refusal::Refusal;
use ring::RingNumber;
use seq_number::SeqNumber;

// An item: its first number, how many ring steps follow it, and the words that it takes.
#[derive(Clone, Copy)]
pub struct Head {
    pub first: u32,
    pub steps: u32,
    pub words: usize,
}

// The item that the word at place i begins, or what is wrong with it. A flagged word stands within the list, so that i + 1 is a
// place or the list's end.
pub fn head_at<C: Cell>(list: &[C], i: usize) -> Result<Head, Refusal>
    ensures { Looked (C.words list.now) i result }
{
    let count = C::count(list);
    let word = C::word(list, i);
    if word < FLAG {
        return Ok(Head {
            first: word,
            steps: 0,
            words: 1,
        });
    }
    let end = i + 1;
    if count <= end {
        return Err(Refusal::OpenRange(i));
    }
    let next = C::word(list, end);
    if FLAG <= next {
        return Err(Refusal::FlaggedEnd(end));
    }
    let start = SeqNumber(word - FLAG);
    if start.lt(SeqNumber(next)) {
        Ok(Head {
            first: start.0,
            steps: SeqNumber(next).distance(start),
            words: 2,
        })
    } else {
        Err(Refusal::BackwardRange(end))
    }
}

// The item that `word` begins, where `next` follows it if `more` says so, for who holds the two words apart; a fault's place
// is counted from the word.
pub fn head_of(word: u32, more: bool, next: u32) -> Result<Head, Refusal>
    ensures { result ≡ head_of 0 word (cond more (next ∷ []) []) }
{
    if more {
        head_at(&[word, next], 0)
    } else {
        head_at(&[word], 0)
    }
}

// What a walk over a list has counted: the numbers so far, and the place of the item that takes them past the limit.
#[derive(Clone, Copy)]
pub struct Tally {
    pub total: usize,
    pub past: Option<usize>,
}

impl Tally {
    // With the item at `place` counted.
    pub fn with(self, place: usize, steps: u32) -> Tally
        ensures { result ≡ tally_with self place steps }
    {
        if self.past.is_some() {
            return self;
        }
        let total = self.total;
        if total < LIMIT {
            let more = steps as usize;
            if more < LIMIT - total {
                return Tally {
                    total: total + (more + 1),
                    past: None,
                };
            }
        }
        Tally {
            total,
            past: Some(place),
        }
    }

    // The answer, once every item is counted.
    #[tactic(auto, unfolding(crate::specs::Items::tallied, loss_list::specs::Expand::past_limit, loss_list::specs::Expand::total, loss_list::specs::Expand::counted))]
    pub fn answer(self) -> Result<usize, Refusal>
        ensures { result ≡ tallied self (Sound []) }
    {
        match self.past {
            Some(place) => Err(Refusal::TooManyNumbers(place)),
            None => Ok(self.total),
        }
    }
}
