// Writing a line of a sheet to the front of a buffer.

#![tactic(auto)]

ghost use Rattle.std.specs.Prelude.{◌≡◌, [], ◌∷◌, ◌++◌, ◌+◌, ◌≤◌, length};
ghost use Rattle.decimal.specs.Decimal.{numeral};
ghost use Rattle.wire.specs.Lent.{placed};
ghost use Rattle.sheet_line.specs.Text.{tab, ended, text};

use copy::put;
use decimal::{digits, put_number};
use sheet_line::{LINE_FEED, Line, TAB};

// The length of a number with the tab before it.
fn field_length(n: u64) -> usize
    ensures { (result ≡ length (numeral n) + 1) × (result ≤ 21) }
{
    digits(n) + 1
}

// Writes a number with the tab before it.
fn put_field(n: u64, into: &mut [u8])
    ensures { into.new ≡ placed (tab ∷ numeral n) into.old }
{
    let end = field_length(n);
    if into.len() < end {
        return;
    }
    into[0] = TAB;
    put_number(n, &mut into[1..end]);
}

fn put_line_feed(into: &mut [u8])
    ensures { into.new ≡ placed (ended []) into.old }
{
    if into.is_empty() {
        return;
    }
    into[0] = LINE_FEED;
}

// The length of a line of a word and one number or two.
fn length_with(word: &[u8], numbers: &[u64]) -> usize
    requires { (length word.now ≤ 4) × (length numbers.now ≤ 2) }
    ensures { (result ≡ length (word.now ++ ended numbers.now)) × (result ≤ 47) }
{
    let mut bytes = word.len() + 1;
    for number in numbers {
        bytes += field_length(*number);
    }
    bytes
}

// Writes such a line to the caller's buffer, since nothing is on the heap: `end` says how far it is written.
fn put_with(word: &[u8], numbers: &[u64], into: &mut [u8])
    requires { (length word.now ≤ 4) × (length numbers.now ≤ 2) }
    ensures { into.new ≡ placed (word.now ++ ended numbers.now) into.old }
{
    if into.len() < length_with(word, numbers) {
        return;
    }
    let mut end = word.len();
    put(word, &mut into[0..end]);
    for number in numbers {
        let next = end + field_length(*number);
        put_field(*number, &mut into[end..next]);
        end = next;
    }
    put_line_feed(&mut into[end..end + 1]);
}

// A line's length in bytes, of which there are not many.
#[tactic(auto, unfolding(sheet_line::specs::Text::text))]
pub fn length_of(line: Line) -> usize
    ensures { (result ≡ length (text line)) × (result ≤ 47) }
{
    match line {
        Line::Gaps { edition, limit } => length_with(b"gaps", &[edition, limit]),
        Line::One { number } => length_with(b"one", &[number]),
        Line::Run { first, last } => length_with(b"run", &[first, last]),
        Line::End { total } => length_with(b"end", &[total]),
    }
}

// Writes a line to the front of a buffer; to one that is too short for it, nothing.
// The table of length_of again: shared, it would have to be lent what is done with a row.
#[tactic(auto, unfolding(sheet_line::specs::Text::text))]
pub fn put_line(line: Line, into: &mut [u8])
    ensures { into.new ≡ placed (text line) into.old }
{
    match line {
        Line::Gaps { edition, limit } => put_with(b"gaps", &[edition, limit], into),
        Line::One { number } => put_with(b"one", &[number], into),
        Line::Run { first, last } => put_with(b"run", &[first, last], into),
        Line::End { total } => put_with(b"end", &[total], into),
    }
}
