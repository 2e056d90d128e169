// Two loss lists merged into one. Both are judged whole first, and every number is counted before a word is written, since a refusal leaves the buffer as it was.
//
// Lists that stand in order from the oldest number, as a compressor's do, are walked side by side, each item once. In a list in disorder the next number is looked for
// among all its items, once for each run of the result; of a run in several pieces, three such looks find 512 numbers.

#![tactic(auto)]

mod check;
mod find;
mod items;
mod lists;
mod look;
mod marks;
mod walk;
mod write;

ghost use Rattle.std.specs.Prelude.{length};
ghost use Rattle.merging.specs.Merging.{union, barred, Merges, MergesBytes};
ghost use Rattle.merge.specs.Check.{Judges, Merged};

use byte_expansion::judge_bytes;
use lists::{Lists, Looked};
use loss_expansion::judge;
use loss_list::Cell;
use refusal::Refusal;

impl<'a, C: Cell> Lists<'a, C> {
    // Merges the lists, given what each is judged to be on its own.
    fn merge(
        &self,
        one: Result<usize, Refusal>,
        other: Result<usize, Refusal>,
        into: &mut [C],
    ) -> Result<usize, Refusal>
        requires first_judged { Judges (C.words self.now.first.now) one }
        requires second_judged { Judges (C.words self.now.second.now) other }
        ensures { Merged C.storage (barred self.now.oldest one other (C.words self.now.first.now) (C.words self.now.second.now)) (union self.now.oldest (C.words self.now.first.now) (C.words self.now.second.now)) (length (C.words into.old)) into.old result into.new }
    {
        let checked = self.check(one, other)?;
        let words = checked.words;
        if C::count(into) < words {
            return Err(Refusal::NoRoom(words));
        }
        let looked = Looked {
            lists: *self,
            left: checked.left,
            right: checked.right,
        };
        looked.write(into);
        Ok(words)
    }
}

pub fn merge_loss_lists(
    oldest: u32,
    first: &[u32],
    second: &[u32],
    into: &mut [u32],
) -> Result<usize, Refusal>
    ensures { Merges oldest first.now second.now into.old result into.new }
{
    let lists = Lists {
        first,
        second,
        oldest,
    };
    lists.merge(judge(first), judge(second), into)
}

// For bytes, by the name that the C function calls.
pub fn merge_bytes(
    oldest: u32,
    first: &[u8],
    second: &[u8],
    into: &mut [u8],
) -> Result<usize, Refusal>
    ensures { MergesBytes oldest first.now second.now into.old result into.new }
{
    let lists = Lists {
        first,
        second,
        oldest,
    };
    lists.merge(judge_bytes(first), judge_bytes(second), into)
}
