// What comes before a word is written: the checks, in their order.
ghost use Rattle.merge.specs.Check.{Judges, AdmitsAll};

use super::lists::{Lists, Looked};
use super::look::look;
use loss_list::{Cell, FLAG, LIMIT};
use refusal::Refusal;

// Lists that may be merged: which of them stand in order, and how many words they are merged into. No `Looked`, which would have to say that its lists are those that were given.
#[derive(Clone, Copy)]
pub(crate) struct Checked {
    pub(crate) left: bool,
    pub(crate) right: bool,
    pub(crate) words: usize,
}

impl<'a, C: Cell> Lists<'a, C> {
    // The oldest number, what each list is judged to be on its own, the window of each, and then the limit, for which the union is counted.
    pub(crate) fn check(
        &self,
        one: Result<usize, Refusal>,
        other: Result<usize, Refusal>,
    ) -> Result<Checked, Refusal>
        requires first_judged { Judges (C.words self.now.first.now) one }
        requires second_judged { Judges (C.words self.now.second.now) other }
        ensures { AdmitsAll self.now.oldest one other (C.words self.now.first.now) (C.words self.now.second.now) result }
    {
        if FLAG <= self.oldest {
            return Err(Refusal::NotSequence(0));
        }
        one?;
        other?;
        let left = look(self.first, self.oldest)?;
        let right = look(self.second, self.oldest)?;
        let lists = *self;
        let looked = Looked { lists, left, right };
        let mut none: [C; 0] = [];
        let all = looked.write(&mut none);
        if LIMIT < all.numbers {
            return Err(Refusal::TooManyNumbers(0));
        }
        Ok(Checked {
            left,
            right,
            words: all.words,
        })
    }
}
