// Questions on ring numbers: the same of sequence numbers and of message numbers.
use super::say::{Out, Refused};
use ring::{Ordering, RingNumber};
use std::fmt::{self, Write};

#[derive(Clone, Copy)]
pub enum Question {
    Truncate(u32),
    New(u32),
    Increment(u32),
    Add(u32, u32),
    Sub(u32, u32),
    Distance(u32, u32),
    Compare(u32, u32),
    Signed(u32, u32),
    Less(u32, u32),
    Raw(u32),
}

impl Question {
    // The question of a number from 1 to 10.
    pub fn new(number: u32, a: u32, b: u32) -> Question {
        match number {
            1 => Question::Truncate(a),
            2 => Question::New(a),
            3 => Question::Increment(a),
            4 => Question::Add(a, b),
            5 => Question::Sub(a, b),
            6 => Question::Distance(a, b),
            7 => Question::Compare(a, b),
            8 => Question::Signed(a, b),
            9 => Question::Less(a, b),
            _ => Question::Raw(a),
        }
    }

    pub fn answer<N: RingNumber>(self, out: &mut Out) -> fmt::Result {
        match self {
            Question::Truncate(a) => write!(out, "ok {}", N::new_truncate(a).word()),
            Question::New(a) => match N::new(a) {
                Ok(n) => write!(out, "ok {}", n.word()),
                Err(why) => write!(out, "{}", Refused::from(why)),
            },
            Question::Increment(a) => {
                let n = N::from_word(a).increment();
                write!(out, "ok {} {}", n.was.word(), n.next.word())
            }
            Question::Add(a, b) => write!(out, "ok {}", N::from_word(a).add(b).word()),
            Question::Sub(a, b) => write!(out, "ok {}", N::from_word(a).sub(b).word()),
            Question::Distance(a, b) => {
                write!(out, "ok {}", N::from_word(a).distance(N::from_word(b)))
            }
            Question::Compare(a, b) => {
                out.write_str(order(N::from_word(a).cmp(N::from_word(b))))
            }
            Question::Signed(a, b) => {
                write!(
                    out,
                    "ok {}",
                    N::from_word(a).signed_distance(N::from_word(b))
                )
            }
            Question::Less(a, b) => {
                let less = N::from_word(a).lt(N::from_word(b));
                write!(out, "ok {}", u8::from(less))
            }
            Question::Raw(a) => write!(out, "ok {}", N::from_word(a).as_raw()),
        }
    }
}

fn order(order: Ordering) -> &'static str {
    match order {
        Ordering::Less => "ok Less",
        Ordering::Equal => "ok Equal",
        Ordering::Greater => "ok Greater",
        Ordering::Opposite => "ok Opposite",
    }
}
