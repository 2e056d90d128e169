// Compressing a loss list whose words lie as bytes, four big-endian to a word. What is quick stands in files of its own, each with a contract that says what the plain
// walk of loss_compression answers: numbers judged with no branch, and one run at once. Numbers of which no run has more than two are copied; of all others the plain walk is taken.

#![tactic(auto)]

mod gather;
mod one_run;

ghost use Rattle.loss_list.specs.InBytes.{CompressesBytes};

use copy::put;
use gather::judge_quickly;
use loss_compression::Judged;
use loss_list::{LIMIT, Limited};
use one_run::{compress_run, is_one_run};
use refusal::Refusal;

// Whole words and the limit are two tests, as in judge_bytes.
pub fn compress_bytes(list: &[u8], into: &mut [u8]) -> Result<usize, Refusal>
    ensures { CompressesBytes list.now into.old result into.new }
{
    if list.len() % 4 != 0 {
        return Err(Refusal::NotEnoughData);
    }
    let n = list.len() / 4;
    if LIMIT < n {
        return Err(Refusal::TooLong(LIMIT));
    }
    let limited = Limited { bytes: list };
    if is_one_run(&limited) {
        return compress_run(&limited, into);
    }
    let words = judge_quickly(&limited)?;
    if words != n {
        return Judged { list, words }.write(into);
    }
    if into.len() / 4 < words {
        return Err(Refusal::NoRoom(words));
    }
    put(list, into);
    Ok(words)
}
