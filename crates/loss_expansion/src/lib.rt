// Expanding a loss list, of words or of words that lie as bytes. A list is judged whole before a number is written, since a refusal leaves the buffer as it was.

#![tactic(auto)]

ghost use Rattle.std.specs.Prelude.{◌≡◌, ◌++◌, ◌+◌, ◌*◌, ℕ, ◌≤◌, length, drop, Result, Ok};
ghost use Rattle.refusal.specs.declared.Refusal.{Refusal};
ghost use Rattle.wire.specs.Storage.{flat, Writes};
ghost use Rattle.loss_list.specs.Run.{limit};
ghost use Rattle.loss_list.specs.Expand.{items, formed, judgement, expanding, expanded, Expands};

use loss_list::{Cell, FLAG, LIMIT};
use loss_steps::item::{Tally, head_at};
use refusal::Refusal;
use ring::RingNumber;
use seq_number::SeqNumber;

// What the items themselves say, one by one, whatever the length of the list.
fn judge_items<C: Cell>(list: &[C]) -> Result<usize, Refusal>
    ensures { result ≡ formed limit (items 0 (C.words list.now)) }
{
    let mut tally = Tally {
        total: 0,
        past: None,
    };
    let mut i: usize = 0;
    // By while: no other loop asks each item for its fault, and an iterator that does would be as long again.
    while i < C::count(list) {
        let item = head_at(list, i)?;
        tally = tally.with(i, item.steps);
        i += item.words;
    }
    tally.answer()
}

// The list's own refusal, whatever the room, or how many numbers it stands for.
#[tactic(auto, unfolding(loss_list::specs::Run::limit, loss_list::specs::Expand::judgement))]
pub fn judge<C: Cell>(list: &[C]) -> Result<usize, Refusal>
    ensures { result ≡ judgement limit (C.words list.now) }
{
    if LIMIT < C::count(list) {
        return Err(Refusal::TooLong(LIMIT));
    }
    judge_items(list)
}

// Stores a word at a place, which counts words, of a buffer that has it: its cells are lent, and no others.
fn store_at<C: Cell>(into: &mut [C], out: usize, word: u32)
    requires { C.storage.size * (out + 1) ≤ length into.old }
    ensures { into.new ≡ C.storage.store into.old out word }
{
    let at = C::SIZE * out;
    C::store(&mut into[at..at + C::SIZE], word);
}

// Writes the numbers that a judged list stands for, which fit: it has no fault, so that the flag alone tells an item.
// To the caller's buffer, since nothing is on the heap: `out` says how far it is written.
fn expand_into<C: Cell>(judged: &Judged<'_, C>, into: &mut [C])
    requires room { length (flat C.storage (expanded (C.words judged.now.list.now))) ≤ length into.old }
    ensures { into.new ≡ flat C.storage (expanded (C.words judged.now.list.now)) ++ drop (length (flat C.storage (expanded (C.words judged.now.list.now)))) into.old }
{
    let list = judged.list;
    let mut i: usize = 0;
    let mut out: usize = 0;
    // By while over the items and by loop over a range's steps, left by its label: the form that was asked for.
    'items: while i < C::count(list) {
        let word = C::word(list, i);
        if word < FLAG {
            store_at(into, out, word);
            out += 1;
            i += 1;
        } else {
            let first = word - FLAG;
            let steps = SeqNumber(C::word(list, i + 1)).distance(SeqNumber(first));
            let mut k: u32 = 0;
            'range: loop {
                store_at(into, out, SeqNumber(first).add(k).0);
                out += 1;
                if k == steps {
                    break 'range;
                }
                k += 1;
            }
            i += 2;
        }
    }
}

// A list that is judged, and how many numbers it stands for.
// Its namesake of the other crate writes something else, and holds that another count was judged.
#[derive(Drop)]
pub struct Judged<'a, C: Cell> {
    pub list: &'a [C],
    pub count: usize,
    ghost judged: { ◌≡◌ {A = Result ℕ Refusal} (Ok count) (judgement limit (C.words list.now)) },
}

impl<'a, C: Cell> Judged<'a, C> {
    // Writes the numbers, if there is room.
    pub fn write(&self, into: &mut [C]) -> Result<usize, Refusal>
        ensures { Writes C.storage (expanding (C.words self.now.list.now) (length (C.words into.old))) (expanded (C.words self.now.list.now)) into.old result into.new }
    {
        if C::count(into) < self.count {
            return Err(Refusal::NoRoom(self.count));
        }
        expand_into(self, into);
        Ok(self.count)
    }
}

pub fn decompress_loss_list(list: &[u32], into: &mut [u32]) -> Result<usize, Refusal>
    ensures { Expands list.now into.old result into.new }
{
    let count = judge(list)?;
    Judged { list, count }.write(into)
}
