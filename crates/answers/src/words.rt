// Bytes as words, and questions on lists in words: lists compressed and expanded, a sheet's list, and the C functions that write
// words.
ghost use Rattle.std.specs.Prelude.{◌≡◌, length};

use super::say::{Out, Refused, unpacked, wrote};
use super::{AROUND, Parts};
use std::fmt::{self, Write};

// The most words of a list, and of a buffer of words with those around it.
const WORDS: usize = 100000;

const WORDS_AROUND: usize = 100008;

#[derive(Clone, Copy)]
pub enum Question {
    Compress,
    Expand,
    ReadSheet,
    // By the C functions.
    ReadData,
    ReadKey,
}

// Takes up the words of some bytes, as many as there are and as there is room for. Questions are read, and words put back, by
// code of this program's own: what is asked about cannot garble what is asked. By `as_chunks`, here and below: `zip` and `chunks_exact` take two to five times
// the steps of bin/wrong's interpreter.
pub fn load(bytes: &[u8], words: &mut [u32])
    ensures { length words.new ≡ length words.old }
{
    let fours = bytes.as_chunks::<4>().0;
    for (i, word) in words.iter_mut().enumerate() {
        if let Some(four) = fours.get(i) {
            *word = u32::from_be_bytes(*four);
        }
    }
}

// Puts the words back.
fn store(words: &[u32], bytes: &mut [u8])
    ensures { length bytes.new ≡ length bytes.old }
{
    let fours = bytes.as_chunks_mut::<4>().0;
    for (i, four) in fours.iter_mut().enumerate() {
        if let Some(word) = words.get(i) {
            *four = word.to_be_bytes();
        }
    }
}

// Lends the words of some bytes to a call; None where they are more than a list may have here.
pub(crate) fn with_words<T, F: FnOnce(&[u32]) -> T>(bytes: &[u8], call: F) -> Option<T>
    requires { F.IsAlwaysCallable call }
{
    let mut room = [0; WORDS];
    let words = room.get_mut(..bytes.len() / 4)?;
    load(bytes, words);
    Some(call(words))
}

impl Question {
    // The question of a number that is no sheet's.
    pub fn new(number: u32) -> Question {
        match number {
            44 => Question::Compress,
            46 => Question::ReadData,
            47 => Question::ReadKey,
            _ => Question::Expand,
        }
    }

    // What the call answered, of a sheet in bytes; None where the list is longer than any may be.
    fn call(self, bytes: &[u8], into: &mut [u32]) -> Option<Result<usize, Refused>> {
        match self {
            Question::Compress => with_words(bytes, |list| {
                loss_compression::compress_loss_list(list, into).map_err(Refused::from)
            }),
            Question::Expand => with_words(bytes, |list| {
                loss_expansion::decompress_loss_list(list, into).map_err(Refused::from)
            }),
            Question::ReadSheet => {
                let words = sheet_reading::read_sheet(bytes, into).map_err(Refused::from);
                Some(words.map(|words| words.saturating_mul(4)))
            }
            Question::ReadData => Some(unpacked(relay::data::xez_read_data(bytes, into))),
            Question::ReadKey => Some(unpacked(relay::key::xez_read_key(bytes, into))),
        }
    }

    // The words of the whole buffer, with those of the painted bytes around it, are put back once the call is over. Says how
    // many bytes may be others now.
    pub fn answer(
        self,
        parts: Parts<'_>,
        whole: &mut [u8],
        out: &mut Out,
    ) -> Result<usize, fmt::Error> {
        let mut room = [0; WORDS_AROUND];
        let Some(words) = room.get_mut(..whole.len() / 4) else {
            return Ok(0);
        };
        load(whole, words);
        if words.len() < 8 {
            return Ok(0);
        }
        let end = words.len() - 4;
        let answer = self.call(parts.first, &mut words[4..end]);
        store(words, whole);
        let end = whole.len() - AROUND;
        let into = &whole[AROUND..end];
        match answer {
            Some(answer) => wrote(answer, parts.given, into, out),
            None => {
                write!(out, " ")?;
                out.hex(into)?;
                Ok(into.len())
            }
        }
    }
}
