// Questions on lists as bytes: the C functions that write bytes, a list's sheet, why a number is lost, and two lists merged.
use super::Parts;
use super::say::{Out, Refused, unpacked, wrote};
use super::words::with_words;
use std::fmt::{self, Write};
use why_lost::why_lost;

#[derive(Clone, Copy)]
pub enum Question {
    // By the C functions, with all that the buffer holds.
    Compress,
    Expand,
    WriteData,
    WriteSheet,
    // By the C function; its room and its value are in words.
    Merge { oldest: u32 },
    // By the C function, and by that on words.
    WhyLost(u32),
    WhyLostInWords(u32),
}

impl Question {
    // The question of a number past 40.
    pub fn new(number: u32, a: u32) -> Question {
        match number {
            41 => Question::Compress,
            42 => Question::Expand,
            48 => Question::WriteSheet,
            50 => Question::WhyLost(a),
            52 => Question::Merge { oldest: a },
            51 | 53..=99 => Question::WhyLostInWords(a),
            _ => Question::WriteData,
        }
    }

    // Says how many bytes of the buffer may be others now.
    pub fn answer(
        self,
        parts: Parts<'_>,
        into: &mut [u8],
        out: &mut Out,
    ) -> Result<usize, fmt::Error> {
        let first = parts.first;
        match self {
            Question::Compress => {
                wrote(unpacked(relay::xez_compress(first, into)), true, into, out)
            }
            Question::Expand => wrote(unpacked(relay::xez_expand(first, into)), true, into, out),
            Question::WriteData => {
                let packed = with_words(first, |fields| {
                    relay::data::xez_write_data(fields, parts.second, into)
                });
                // With more words than are held here nothing is asked, and nothing written.
                wrote(unpacked(packed.unwrap_or(0)), true, into, out)
            }
            Question::WriteSheet => {
                match with_words(first, |list| sheet_writing::write_sheet(list, into)) {
                    Some(answer) => wrote(answer, false, into, out),
                    None => Ok(0),
                }
            }
            Question::Merge { oldest } => {
                let packed = relay::merged::xez_merge(oldest, first, parts.second, into);
                let answer = unpacked(packed).map(|words| words.saturating_mul(4));
                wrote(answer, false, into, out)
            }
            Question::WhyLost(number) => {
                lost(found(relay::lost::xez_why_lost(first, number)), out)?;
                Ok(0)
            }
            Question::WhyLostInWords(number) => {
                if let Some(answer) = with_words(first, |list| why_lost(list, number)) {
                    lost(answer.map_err(Refused::from), out)?;
                }
                Ok(0)
            }
        }
    }
}

// What the C function answered: the place, the value that is none, or a refusal.
fn found(packed: u64) -> Result<Option<usize>, Refused> {
    match unpacked(packed)? {
        0xffff_ffff => Ok(None),
        place => Ok(Some(place)),
    }
}

fn lost(answer: Result<Option<usize>, Refused>, out: &mut Out) -> fmt::Result {
    match answer {
        Ok(Some(place)) => write!(out, "ok lost {place}"),
        Ok(None) => write!(out, "ok not"),
        Err(why) => write!(out, "{why}"),
    }
}
