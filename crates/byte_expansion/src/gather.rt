// Words judged with no branch for each, so that several are taken at a time.
ghost use Rattle.std.specs.Prelude.{◌≡◌, ◌^◌, ◌<◌};
ghost use Rattle.wire.specs.Bytes.{in_words};
ghost use Rattle.loss_list.specs.Run.{limit};
ghost use Rattle.loss_list.specs.Expand.{judgement};
ghost use Rattle.byte_expansion.specs.Quick.{gap, gaps};

use loss_expansion::judge;
use loss_list::{FLAG, LIMIT, Limited};
use refusal::Refusal;
use ring::RingNumber;
use seq_number::SeqNumber;
use wire::word_at;

// How many numbers stand between the ends of a range, with no branch: 0 where `before` opens none, and far too many
// where `this` does not close it.
fn gap_between(before: u32, this: u32) -> usize
    ensures { (result ≡ gap before this) × (result < 2 ^ 32) }
{
    let between = SeqNumber(this).distance(SeqNumber(before).add(1));
    (before / FLAG) as usize * (between as usize + (this / FLAG) as usize * 0x8000_0000)
}

// All of them, with no branch but the loop's.
fn gather(list: &Limited) -> usize
    ensures { (result ≡ gaps 0 (in_words list.now.bytes.now)) × (result < 2 ^ 62) }
{
    let n = list.bytes.len() / 4;
    let mut sum: usize = 0;
    let mut last: u32 = 0;
    for i in 0..n {
        let this = word_at(list.bytes, i);
        sum += gap_between(last, this);
        last = this;
    }
    sum + gap_between(last, FLAG)
}

// What `judge` answers. Few gaps show that there is no fault; else it is looked for word by word.
pub(crate) fn judge_quickly(list: &Limited) -> Result<usize, Refusal>
    ensures { result ≡ judgement limit (in_words list.now.bytes.now) }
{
    let count = list.bytes.len() / 4 + gather(list);
    if count <= LIMIT {
        return Ok(count);
    }
    judge(list.bytes)
}
