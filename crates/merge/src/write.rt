// What the walk over two lists finds, counted and written run by run. To count without writing is to write into a buffer that has no room at all.
ghost use Rattle.std.specs.Prelude.{◌+◌, ◌*◌, ◌<◌, ◌≤◌, length};
ghost use Rattle.wire.specs.Storage.{flat};
ghost use Rattle.loss_list.specs.Compress.{compressed};
ghost use Rattle.merging.specs.Merging.{union};
ghost use Rattle.merge.specs.Walk.{Ready, Puts, Writes};

use super::find::NONE;
use super::lists::Looked;
use loss_list::Cell;
use loss_steps::coding::range_flag;
use ring::RingNumber;
use seq_number::SeqNumber;

// How many numbers there are, and how many words they are written as.
#[derive(Clone, Copy)]
pub(crate) struct Totals {
    pub(crate) numbers: usize,
    pub(crate) words: usize,
}

// Puts a word at a place, unless the buffer has no room at all.
fn put<C: Cell>(into: &mut [C], out: usize, word: u32)
    requires { 0 < length into.old → C.storage.size * (out + 1) ≤ length into.old }
    ensures { Puts C.storage into.old out word into.new }
{
    if !into.is_empty() {
        let at = C::SIZE * out;
        C::store(&mut into[at..at + C::SIZE], word);
    }
}

impl<'a, C: Cell> Looked<'a, C> {
    // Writes all to the caller's buffer, where it has any room: nothing is on the heap, so `out` says how far it is written. The walk over a run has one caller, so that what it keeps stays in registers.
    pub(crate) fn write(&self, into: &mut [C]) -> Totals
        requires ready { Ready self.now.lists.oldest (C.words self.now.lists.first.now) (C.words self.now.lists.second.now) self.now.left self.now.right }
        requires room { 0 < length into.old → length (flat C.storage (compressed (union self.now.lists.oldest (C.words self.now.lists.first.now) (C.words self.now.lists.second.now)))) ≤ length into.old }
        ensures { Writes C.storage (union self.now.lists.oldest (C.words self.now.lists.first.now) (C.words self.now.lists.second.now)) into.old result into.new }
    {
        let mut walk = self.begin();
        let mut numbers: usize = 0;
        let mut out: usize = 0;
        'runs: while walk.from < NONE {
            let run = self.run_from(walk);
            walk = run.next;
            let steps = run.to - run.from;
            let number = SeqNumber(self.lists.oldest).add(run.from).0;
            numbers += steps as usize + 1;
            if steps == 0 {
                put(into, out, number);
                out += 1;
            } else {
                put(into, out, number | range_flag(steps as usize));
                put(into, out + 1, SeqNumber(self.lists.oldest).add(run.to).0);
                out += 2;
            }
        }
        Totals {
            numbers,
            words: out,
        }
    }
}
