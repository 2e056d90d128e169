// Asks the steps of the walks over lists by themselves and prints each answer, a line for each: what lies in two parts, words
// and then bytes, read as one list; the item that a word begins, with the next word apart; and a word stored in cells
// that are too few for it, just enough, or more. What it must print is what tests/models/step_cases.py prints.

#![tactic(auto)]

use loss_list::Cell;
use loss_steps::item::{Head, head_of};
use refusal::Refusal;

const STDOUT: i32 = 1;

fn text(some: &[u8]) {
    io::write_all(STDOUT, some);
}

// A number after a space.
fn number(n: u64) {
    text(b" ");
    io::print_decimal(STDOUT, n);
}

// All the words of a list in two parts, and the one past the last.
fn parts(words: &[u32], bytes: &[u8]) {
    let count = spans::count(words, bytes);
    text(b"parts");
    number(count as u64);
    for i in 0..=count {
        number(u64::from(spans::word(words, bytes, i)));
    }
    text(b"\n");
}

fn head(word: u32, more: bool, next: u32) {
    text(b"head");
    match head_of(word, more, next) {
        Ok(
            Head {
                first,
                steps,
                words,
            },
        ) => {
            number(u64::from(first));
            number(u64::from(steps));
            number(words as u64);
        }
        Err(why) => refused(why),
    }
    text(b"\n");
}

fn refused(why: Refusal) {
    text(b" refused");
    number(why.number());
    number(why.carried());
}

fn store_word(cells: &mut [u32], word: u32) {
    u32::store(cells, word);
    text(b"words");
    for cell in cells {
        number(u64::from(*cell));
    }
    text(b"\n");
}

fn store_bytes(cells: &mut [u8], word: u32) {
    u8::store(cells, word);
    text(b"bytes");
    for cell in cells {
        number(u64::from(*cell));
    }
    text(b"\n");
}

fn main() {
    parts(&[], &[]);
    parts(&[5], &[]);
    parts(&[], &[0, 0, 0, 5, 0, 0, 0]);
    parts(
        &[0x8000_0005, 7],
        &[0, 0, 0, 9, 0x80, 0, 0, 10, 0, 1, 0, 0, 1],
    );
    head(5, false, 0);
    head(5, true, 0x8000_0007);
    head(0x8000_0005, true, 7);
    head(0xffff_fffe, true, 1);
    head(0x8000_0005, false, 7);
    head(0x8000_0005, true, 0x8000_0007);
    head(0x8000_0005, true, 5);
    head(0x8000_0000, true, 0x4000_0000);
    store_word(&mut [], 9);
    store_word(&mut [1], 0x8000_0009);
    store_word(&mut [1, 2], 9);
    store_bytes(&mut [1, 2, 3], 0x8001_0203);
    store_bytes(&mut [1, 2, 3, 4], 0x8001_0203);
    store_bytes(&mut [1, 2, 3, 4, 5], 0x8001_0203);
}
