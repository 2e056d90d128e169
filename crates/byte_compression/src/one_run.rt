// One run, compressed at once: a long outage is one.
ghost use Rattle.std.specs.Prelude.{◌≡◌, true};
ghost use Rattle.wire.specs.Bytes.{in_words};
ghost use Rattle.loss_list.specs.InBytes.{CompressesBytes};
ghost use Rattle.byte_compression.specs.Quick.{OneRun};

use loss_list::{FLAG, Limited};
use refusal::Refusal;
use ring::RingNumber;
use seq_number::SeqNumber;
use wire::{put_word, word_at};

// Whether a list is one run of more than two numbers. Only where its ends stand as far apart as those of a run is it walked,
// with no branch but the loop's.
pub(crate) fn is_one_run(list: &Limited) -> bool
    ensures { result ≡ true → OneRun (in_words list.now.bytes.now) }
{
    let n = list.bytes.len() / 4;
    if n <= 2 {
        return false;
    }
    let first = word_at(list.bytes, 0);
    if FLAG <= first {
        return false;
    }
    if word_at(list.bytes, n - 1) != SeqNumber(first).add((n - 1) as u32).0 {
        return false;
    }
    let mut strays: u32 = 0;
    for i in 0..n {
        let this = word_at(list.bytes, i);
        strays += u32::from(this != SeqNumber(first).add(i as u32).0);
    }
    strays == 0
}

// What compressing one run answers: its two words are known at once.
pub(crate) fn compress_run(list: &Limited, into: &mut [u8]) -> Result<usize, Refusal>
    requires { OneRun (in_words list.now.bytes.now) }
    ensures { CompressesBytes list.now.bytes.now into.old result into.new }
{
    if into.len() / 4 < 2 {
        return Err(Refusal::NoRoom(2));
    }
    let n = list.bytes.len() / 4;
    put_word(word_at(list.bytes, 0) + FLAG, &mut into[0..4]);
    put_word(word_at(list.bytes, n - 1), &mut into[4..8]);
    Ok(2)
}
