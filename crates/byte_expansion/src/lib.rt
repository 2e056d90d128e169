// Expanding a loss list whose words lie as bytes, four big-endian to a word. What is quick stands in files of its own, each with a contract that says what the plain walk
// of loss_expansion answers: words judged with no branch, and lists of which no range has more than two numbers. For all others the plain walk is taken.

#![tactic(auto)]

mod cleared;
mod gather;

ghost use Rattle.std.specs.Prelude.{◌≡◌};
ghost use Rattle.loss_list.specs.InBytes.{judgement_bytes, ExpandsBytes};

use cleared::clear_into;
use gather::judge_quickly;
use loss_expansion::Judged;
use loss_list::{LIMIT, Limited};
use refusal::Refusal;

// The list's own refusal, whatever the room, or how many numbers it stands for.
#[tactic(auto, using(crate::proofs::Judged::judged), unfolding(loss_list::specs::Run::limit, loss_list::specs::Expand::judgement, loss_list::specs::InBytes::judgement_bytes))]
pub fn judge_bytes(list: &[u8]) -> Result<usize, Refusal>
    ensures { result ≡ judgement_bytes list.now }
{
    if list.len() % 4 != 0 {
        return Err(Refusal::NotEnoughData);
    }
    if LIMIT < list.len() / 4 {
        return Err(Refusal::TooLong(LIMIT));
    }
    judge_quickly(&Limited { bytes: list })
}

pub fn decompress_bytes(list: &[u8], into: &mut [u8]) -> Result<usize, Refusal>
    ensures { ExpandsBytes list.now into.old result into.new }
{
    let count = judge_bytes(list)?;
    if count != list.len() / 4 {
        return Judged { list, count }.write(into);
    }
    if into.len() / 4 < count {
        return Err(Refusal::NoRoom(count));
    }
    clear_into(list, into);
    Ok(count)
}
