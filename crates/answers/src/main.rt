// Answers questions on standard input, each with a line: those of tests/oracle/README.md on ring numbers, data packets,
// extensions, lists in words, the C functions, gap sheets, why a number is lost and the merging of two lists.
//
// A question there is a line of text. tests/frames.c makes of it what is read here: twelve big-endian words, and then bytes.
// The words are the question's number; the eight numbers that it takes, none larger than its field can hold; the length of
// the buffer that it writes, counted with 16 bytes before it and 16 after, or 0 where it writes none; and the lengths of two
// parts of bytes, which follow. Where the question's number is 100 or more, the bytes that the buffer holds come after them.
//
// bin/wrong builds this program anew for each wrong program that reaches it, and runs it on an interpreter that stops after
// twenty million steps. So it reads and writes by the kit's `io`, since the runtime of `std` takes twice as long to build,
// and spends few steps on each byte of a buffer.

#![tactic(auto)]

mod extensions;
mod lists;
mod numbers;
mod packets;
mod say;
mod words;

use msg_number::MsgNumber;
use say::Out;
use seq_number::SeqNumber;
use std::fmt::{self, Write};

const STDIN: i32 = 0;

// The most bytes of a second part.
const SECOND: usize = 400000;

// The most bytes of a sheet, and of the room for one with those around it.
const SHEET: usize = 1000000;

const SHEET_AROUND: usize = 1000032;

// How many bytes stand before the buffer, and after it.
pub const AROUND: usize = 16;

// What a buffer is filled with before it is written, where the question gives no bytes.
const PAINT: u8 = 0x77;

// What is asked.
#[derive(Clone, Copy)]
enum Question {
    Sequence(numbers::Question),
    Message(numbers::Question),
    Packet(packets::Question),
    Extension(extensions::Question),
    List(lists::Question),
    Words(words::Question),
}

impl Question {
    // The question of a number, with the eight that it takes; none where the line is no question. 100 and more is a question whose buffer's bytes are given.
    fn new(number: u32, numbers: [u32; 8]) -> Option<Question> {
        let kind = number % 100;
        let [a, b, ..] = numbers;
        match number {
            49 => return Some(Question::Words(words::Question::ReadSheet)),
            0..=143 => {}
            _ => return Some(Question::Words(words::Question::new(kind))),
        }
        let question = match kind {
            0 => return None,
            1..=10 => Question::Sequence(numbers::Question::new(kind, a, b)),
            11..=20 => Question::Message(numbers::Question::new(kind - 10, a, b)),
            21..=30 => Question::Packet(packets::Question::new(number, numbers)),
            31..=40 => Question::Extension(extensions::Question::new(kind, numbers)),
            _ => Question::List(lists::Question::new(kind, a)),
        };
        Some(question)
    }

    // Answers it, lent the buffer with what is around it. Says how many bytes of the buffer may be others now.
    fn answer(
        self,
        parts: Parts<'_>,
        whole: &mut [u8],
        out: &mut Out,
    ) -> Result<usize, fmt::Error> {
        let around = if whole.len() < 2 * AROUND { 0 } else { AROUND };
        let end = whole.len() - around;
        match self {
            Question::Sequence(question) => question.answer::<SeqNumber>(out)?,
            Question::Message(question) => question.answer::<MsgNumber>(out)?,
            Question::Packet(question) => {
                return question.answer(parts, &mut whole[around..end], out);
            }
            Question::Extension(question) => {
                return question.answer(parts, &mut whole[around..end], out);
            }
            Question::List(question) => {
                return question.answer(parts, &mut whole[around..end], out);
            }
            Question::Words(question) => return question.answer(parts, whole, out),
        }
        Ok(0)
    }
}

// What comes with a question: two parts of bytes, and whether the bytes of the buffer are given.
#[derive(Clone, Copy)]
pub struct Parts<'a> {
    pub first: &'a [u8],
    pub second: &'a [u8],
    pub given: bool,
}

// Paints the buffer and what is around it, or has it hold the bytes that are given. By `for`, where `fill` takes twice the steps for each byte.
fn prepare(given: bool, whole: &mut [u8]) {
    for byte in whole.iter_mut() {
        *byte = PAINT;
    }
    if given && 2 * AROUND <= whole.len() {
        let end = whole.len() - AROUND;
        io::read_full(STDIN, &mut whole[AROUND..end]);
    }
}

// By `for`, where `any` takes three times the steps for each byte.
fn unpainted(bytes: &[u8]) -> bool {
    for byte in bytes {
        if *byte != PAINT {
            return true;
        }
    }
    false
}

// Says whether a byte before the buffer is another, or one after its first n.
fn touched(whole: &[u8], n: usize) -> bool {
    if whole.len() < 2 * AROUND {
        return false;
    }
    let (before, buffer) = whole.split_at(AROUND);
    unpainted(before) || buffer.get(n..).is_some_and(unpainted)
}

// Reads the bytes of a question, and answers it with a line. One that has more bytes than are held here, or asks for more
// room, has no answer.
fn answer(
    head: [u32; 12],
    first: &mut [u8],
    second: &mut [u8],
    whole: &mut [u8],
    out: &mut Out,
) -> fmt::Result {
    let [number, a, b, c, d, e, f, g, h, room, bytes, more] = head;
    let Some(first) = first.get_mut(..bytes as usize) else {
        return Ok(());
    };
    let Some(second) = second.get_mut(..more as usize) else {
        return Ok(());
    };
    let Some(whole) = whole.get_mut(..room as usize) else {
        return Ok(());
    };
    io::read_full(STDIN, first);
    io::read_full(STDIN, second);
    let parts = Parts {
        first,
        second,
        given: 100 <= number,
    };
    prepare(parts.given, whole);
    let n = match Question::new(number, [a, b, c, d, e, f, g, h]) {
        Some(question) => question.answer(parts, whole, out)?,
        None => {
            write!(out, "not a question")?;
            0
        }
    };
    if touched(whole, n) {
        write!(out, " and touched other bytes")?;
    }
    out.write_char('\n')
}

fn main() {
    let mut bytes = [0; 48];
    let mut head = [0; 12];
    let mut first = [0; SHEET];
    let mut second = [0; SECOND];
    let mut whole = [0; SHEET_AROUND];
    let mut out = Out;
    // As many lines as come; a loop must have an end.
    for _ in 0u64..0x1_0000_0000 {
        if io::read_full(STDIN, &mut bytes) < 48 {
            return;
        }
        words::load(&bytes, &mut head);
        // Each question is answered whatever standard output takes: `Out` does not fail.
        let _ = answer(head, &mut first, &mut second, &mut whole, &mut out);
    }
}
