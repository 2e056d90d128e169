// The items of a list, by how many steps after an oldest number they begin and end.

#![tactic(auto)]

ghost use Rattle.std.specs.Prelude.{◌≡◌, length, get_or};
ghost use Rattle.spans.specs.Spans.{lent, span_of};

use loss_list::FLAG;
use ring::RingNumber;
use seq_number::SeqNumber;
use wire::word_at;

// A list may be lent in two parts, words in a slice and after them words that lie as bytes: `count` and `word` read it as one
// list, without a copy. This is how many words it has.
#[tactic(auto, using(crate::proofs::Spans::length_lent))]
pub fn count(words: &[u32], bytes: &[u8]) -> usize
    ensures { result ≡ length (lent words.now bytes.now) }
{
    words.len() + bytes.len() / 4
}

// .. and the word at place i of it; 0 past the last.
#[tactic(auto, using(crate::proofs::Spans::past_first))]
pub fn word(words: &[u32], bytes: &[u8], i: usize) -> u32
    ensures { result ≡ get_or (lent words.now bytes.now) i 0 }
{
    if i < words.len() {
        return words[i];
    }
    word_at(bytes, i - words.len())
}

// An item: how many steps after the oldest its first number and its last stand, and the words that it takes.
#[derive(Clone, Copy)]
pub struct Span {
    pub from: u32,
    pub to: u32,
    pub words: usize,
}

// The item that begins with `word`, where `next` follows it.
#[tactic(auto, unfolding(crate::specs::Spans::span_of))]
pub fn span_of(oldest: u32, word: u32, next: u32) -> Span
    ensures { result ≡ span_of oldest word next }
{
    if word < FLAG {
        let from = SeqNumber(word).distance(SeqNumber(oldest));
        return Span {
            from,
            to: from,
            words: 1,
        };
    }
    let first = SeqNumber(word - FLAG);
    let from = first.distance(SeqNumber(oldest));
    let steps = SeqNumber(next).distance(first);
    Span {
        from,
        to: from + steps,
        words: 2,
    }
}
