// Compressing a loss list, of words or of words that lie as bytes. A list is judged whole before a word is written, since a refusal leaves the buffer as it was.

#![tactic(auto)]

ghost use Rattle.std.specs.Prelude.{◌≡◌, ◌++◌, ◌+◌, ◌*◌, ℕ, ◌<◌, ◌≤◌, length, drop, Result, Ok};
ghost use Rattle.std.proofs.Math.Option.{none};
ghost use Rattle.refusal.specs.declared.Refusal.{Refusal};
ghost use Rattle.wire.specs.Storage.{flat, Writes};
ghost use Rattle.loss_list.specs.Compress.{order_fault, words, compressed, ordered, judgement, compressing, Compresses};
ghost use Rattle.loss_list.specs.Walk.{RunAt};

use loss_list::{Cell, FLAG, LIMIT};
use loss_steps::coding::{Coding, range_flag};
use refusal::Refusal;
use ring::RingNumber;
use seq_number::SeqNumber;

// What the numbers themselves say, one by one, whatever the length of the list.
fn judge_numbers<C: Cell>(list: &[C]) -> Result<usize, Refusal>
    ensures { result ≡ ordered (order_fault (C.words list.now)) (words (C.words list.now)) }
{
    let count = C::count(list);
    if count == 0 {
        return Ok(0);
    }
    let first = C::word(list, 0);
    if FLAG <= first {
        return Err(Refusal::NotSequence(0));
    }
    let mut coding = Coding {
        last: first,
        running: false,
    };
    let mut words: usize = 1;
    for i in 1..count {
        let counted = coding.with(i, C::word(list, i))?;
        coding = counted.coding;
        words += counted.words;
    }
    Ok(words)
}

// The list's own refusal, whatever the room, or how many words it is written as.
#[tactic(auto, unfolding(loss_list::specs::Run::limit, loss_list::specs::Compress::judgement))]
pub fn judge<C: Cell>(list: &[C]) -> Result<usize, Refusal>
    ensures { result ≡ judgement (C.words list.now) }
{
    if LIMIT < C::count(list) {
        return Err(Refusal::TooLong(LIMIT));
    }
    judge_numbers(list)
}

// The place after the run that begins at i.
fn run_end<C: Cell>(list: &[C], i: usize) -> usize
    requires { (i < length (C.words list.now)) × (order_fault (C.words list.now) ≡ none) }
    ensures { RunAt (C.words list.now) i result }
{
    let count = C::count(list);
    let mut last = C::word(list, i);
    for j in i + 1..count {
        let this = C::word(list, j);
        if this != SeqNumber(last).add(1).0 {
            return j;
        }
        last = this;
    }
    count
}

// Stores a word at a place, which counts words, of a buffer that has it: its cells are lent, and no others.
fn store_at<C: Cell>(into: &mut [C], out: usize, word: u32)
    requires { C.storage.size * (out + 1) ≤ length into.old }
    ensures { into.new ≡ C.storage.store into.old out word }
{
    let at = C::SIZE * out;
    C::store(&mut into[at..at + C::SIZE], word);
}

// Writes the words of a list, which has no fault and fits, to the caller's buffer: nothing is on the heap, so `out` says how far it is written.
fn compress_into<C: Cell>(list: &[C], into: &mut [C])
    requires in_order { order_fault (C.words list.now) ≡ none }
    requires room { length (flat C.storage (compressed (C.words list.now))) ≤ length into.old }
    ensures { into.new ≡ flat C.storage (compressed (C.words list.now)) ++ drop (length (flat C.storage (compressed (C.words list.now)))) into.old }
{
    let mut i: usize = 0;
    let mut out: usize = 0;
    // By while: the run says where the next begins.
    'runs: while i < C::count(list) {
        let first = C::word(list, i);
        let end = run_end(list, i);
        if end == i + 1 {
            store_at(into, out, first);
            out += 1;
        } else {
            let last = end - 1;
            store_at(into, out, first | range_flag(last - i));
            store_at(into, out + 1, C::word(list, last));
            out += 2;
        }
        i = end;
    }
}

// A list that is judged, and how many words it is written as.
// Its namesake of loss_expansion writes something else, and holds that another count was judged.
#[derive(Drop)]
pub struct Judged<'a, C: Cell> {
    pub list: &'a [C],
    pub words: usize,
    ghost judged: { ◌≡◌ {A = Result ℕ Refusal} (Ok words) (judgement (C.words list.now)) },
}

impl<'a, C: Cell> Judged<'a, C> {
    // Writes the words, if there is room.
    pub fn write(&self, into: &mut [C]) -> Result<usize, Refusal>
        ensures { Writes C.storage (compressing (C.words self.now.list.now) (length (C.words into.old))) (compressed (C.words self.now.list.now)) into.old result into.new }
    {
        if C::count(into) < self.words {
            return Err(Refusal::NoRoom(self.words));
        }
        compress_into(self.list, into);
        Ok(self.words)
    }
}

pub fn compress_loss_list(list: &[u32], into: &mut [u32]) -> Result<usize, Refusal>
    ensures { Compresses list.now into.old result into.new }
{
    let words = judge(list)?;
    Judged { list, words }.write(into)
}
