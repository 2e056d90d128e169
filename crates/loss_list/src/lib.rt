// Loss lists: the sequence numbers that never came, packed into words. A number is one word; a range of numbers is its
// first with bit 31 set, then its last, and is written from three numbers up.
//
// Here is the rule, and how a list lies where it is lent. The crates loss_compression and loss_expansion have the plain
// walks, for lists of words and for words that lie as bytes; byte_compression and byte_expansion have the quick ways.

#![tactic(auto)]

ghost use Rattle.std.specs.Prelude.{◌≡◌, ◌++◌, ◌*◌, ◌%◌, ◌≤◌, ◌<◌, ℕ, List, cond, ltb, length, drop, get_or, refl};
ghost use Rattle.wire.specs.Bytes.{in_words};
ghost use Rattle.wire.specs.Storage.{Storage};
ghost use Rattle.loss_list.specs.Run.{limit};
ghost use Rattle.wire.proofs.Storage.{as-words, as_bytes, one_takes, words-fit, four_take, bytes-fit};

use wire::{put_word, word_at};

// The most words given, numbers given and numbers expanded.
pub const LIMIT: usize = 65536;

// Bit 31.
pub const FLAG: u32 = 0x8000_0000;

// A list as it lies in bytes, of whole words and no more than the limit: what the quick ways go by.
#[derive(Clone, Copy)]
pub struct Limited<'a> {
    pub bytes: &'a [u8],
    pub ghost whole: { length bytes.now % 4 ≡ 0 },
    pub ghost within: { length (in_words bytes.now) ≤ limit },
}

// What a lent list of words is made of: the words themselves, or bytes, four to a word.
pub trait Cell: Copy {
    // The words that some cells hold.
    ghost words: { List Self → List ℕ };

    // How words lie in them.
    ghost storage: { Storage Self };

    ghost SIZE: { ℕ };

    // How many cells a word takes.
    const SIZE: usize;

    // How many words there are.
    fn count(cells: &[Self]) -> usize
        ensures { result ≡ length (words cells.now) };

    // The word at place i; 0 past the last, so that a walk may read the word after any without a test.
    fn word(cells: &[Self], i: usize) -> u32
        ensures { result ≡ get_or (words cells.now) i 0 };

    // Stores a word in front of some cells; in fewer than it takes, nothing. A walk lends the cells of one word, so that
    // their number is known where it stands, and pays for no test at each number.
    fn store(cells: &mut [Self], word: u32)
        ensures { cells.new ≡ cond (ltb (length cells.old) storage.size) cells.old (storage.code word ++ drop storage.size cells.old) };

    ghost sized: { SIZE ≡ storage.size };

    // A word takes some room, and there are no more words than there is room for.
    ghost takes: { 0 < storage.size };

    ghost fits: { (cells : List Self) → storage.size * length (words cells) ≤ length cells };
}

impl Cell for u32 {
    ghost words = { λ cells. cells };

    ghost storage = { as-words };

    ghost SIZE = { 1 };

    ghost sized = { refl };

    ghost takes = { one_takes };

    ghost fits = { words-fit };

    const SIZE: usize = 1;

    fn count(cells: &[u32]) -> usize {
        cells.len()
    }

    fn word(cells: &[u32], i: usize) -> u32 {
        if i < cells.len() { cells[i] } else { 0 }
    }

    fn store(cells: &mut [u32], word: u32) {
        if let [first, ..] = cells {
            *first = word;
        }
    }
}

impl Cell for u8 {
    ghost words = { in_words };

    ghost storage = { as_bytes };

    ghost SIZE = { 4 };

    ghost sized = { refl };

    ghost takes = { four_take };

    ghost fits = { bytes-fit };

    const SIZE: usize = 4;

    fn count(cells: &[u8]) -> usize {
        cells.len() / 4
    }

    fn word(cells: &[u8], i: usize) -> u32 {
        word_at(cells, i)
    }

    fn store(cells: &mut [u8], word: u32) {
        put_word(word, cells);
    }
}
