// Numbers judged with no branch for each, so that several are taken at a time.
ghost use Rattle.std.specs.Prelude.{◌≡◌, ℕ, ◌-◌, ◌^◌, ◌<◌, ◌≤◌, length, Result, Ok};
ghost use Rattle.refusal.specs.declared.Refusal.{Refusal};
ghost use Rattle.wire.specs.Bytes.{in_words};
ghost use Rattle.ring.specs.Ring.{half};
ghost use Rattle.loss_list.specs.Compress.{order_fault, words, ordered, judgement};

use loss_compression::judge;
use loss_list::{FLAG, Limited};
use refusal::Refusal;
use ring::RingNumber;
use seq_number::SeqNumber;
use wire::word_at;

// So many steps past the next of the one before, a number is half the ring after that one, and no longer Greater.
const TOO_FAR: u32 = SeqNumber::MAX_DIFF - 1;

// What a walk with no branch but the loop's has gathered of a list: the bits of all numbers; the bits of all the steps that a
// number is past the next of the one before, none where it joins it and `TOO_FAR` or more where that one is not Less; and
// the words that the list is written as where no number is at fault.
#[derive(Clone, Copy)]
struct Gathered {
    numbers: u32,
    steps: u32,
    words: u32,
}

fn gather(list: &Limited) -> Gathered
    requires { 0 < length (in_words list.now.bytes.now) }
    ensures { result.numbers < 2 ^ 31 → result.steps < half 31 - 1 → ◌≡◌ {A = Result ℕ Refusal} (Ok result.words) (ordered (order_fault (in_words list.now.bytes.now)) (words (in_words list.now.bytes.now))) }
{
    let n = list.bytes.len() / 4;
    let mut last = word_at(list.bytes, 0);
    let mut numbers = last;
    let mut steps: u32 = 0;
    let mut words: u32 = 1;
    let mut before: u32 = 1;
    for i in 1..n {
        let this = word_at(list.bytes, i);
        let past = SeqNumber(this).distance(SeqNumber(last).add(1));
        numbers |= this;
        steps |= past;
        words += u32::from(past + before != 0);
        before = past;
        last = this;
    }
    Gathered {
        numbers,
        steps,
        words,
    }
}

// What `judge` answers. Where the bits of all steps are below `TOO_FAR`, so is each step, and the gathered count is the answer; else
// a fault is looked for number by number.
pub(crate) fn judge_quickly(list: &Limited) -> Result<usize, Refusal>
    ensures { result ≡ judgement (in_words list.now.bytes.now) }
{
    if 4 <= list.bytes.len() {
        let gathered = gather(list);
        if gathered.numbers < FLAG && gathered.steps < TOO_FAR {
            return Ok(gathered.words as usize);
        }
    }
    judge(list.bytes)
}
