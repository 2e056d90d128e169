// Reading a sheet. It is judged whole before a word is written, since a refusal leaves the buffer as it was.

#![tactic(auto)]

ghost use Rattle.std.specs.Prelude.{◌≡◌, ◌-◌, length};
ghost use Rattle.std.specs.Iterator.{at_most};
ghost use Rattle.sheet_line.specs.declared.Line.TheVariants.{One, Run};
ghost use Rattle.sheet.specs.Sheet.{editions};
ghost use Rattle.sheet.specs.Reading.{shown, Reads};
ghost use Rattle.sheet_reading.specs.Walk.{GivesLine, LineSays, LimitOf, Judged, Opened, Storable, Stored, Fits, Listing};

use line_reading::{Found, line_at};
use loss_list::{FLAG, LIMIT};
use refusal::Refusal;
use ring::RingNumber;
use seq_number::SeqNumber;
use sheet::{EDITION, FIRST_EDITION, FIRST_LIMIT};
use sheet_line::Line;

// What a line after the first says: an item's numbers and words, or how many numbers there are in all.
#[derive(Clone, Copy)]
enum Says {
    Item { numbers: usize, words: usize },
    End { total: u64 },
}

fn one_says(number: u64) -> Option<Says>
    ensures { LineSays (One number) result }
{
    if number < u64::from(FLAG) {
        return Some(Says::Item {
            numbers: 1,
            words: 1,
        });
    }
    None
}

fn run_says(first: u64, last: u64) -> Option<Says>
    ensures { LineSays (Run first last) result }
{
    if u64::from(FLAG) <= first {
        return None;
    }
    if u64::from(FLAG) <= last {
        return None;
    }
    let start = SeqNumber(first as u32);
    let end = SeqNumber(last as u32);
    if start.lt(end) {
        return Some(Says::Item {
            numbers: end.distance(start) as usize + 1,
            words: 2,
        });
    }
    None
}

fn line_says(line: Line) -> Option<Says>
    ensures { LineSays line result }
{
    match line {
        Line::One { number } => one_says(number),
        Line::Run { first, last } => run_says(first, last),
        Line::Gaps { .. } => None,
        Line::End { total } => Some(Says::End { total }),
    }
}

// The most numbers of a sheet, by its edition.
#[tactic(auto, using(crate::proofs::Judging::latest))]
fn limit_of(edition: u64) -> Option<usize>
    ensures { LimitOf editions edition result }
{
    if edition == EDITION {
        return Some(LIMIT);
    }
    if edition == FIRST_EDITION {
        return Some(FIRST_LIMIT);
    }
    None
}

// An edition as 27 carries it: 0 past 32 bits.
fn shown_edition(number: u64) -> u32
    ensures { result ≡ shown number }
{
    u32::try_from(number).unwrap_or(0)
}

// The lines of a sheet from a place on, each with the place of the next, as far as there are lines.
#[derive(Drop)]
struct Lines<'a> {
    sheet: &'a [u8],
    at: usize,
}

impl Iterator for Lines<'_> {
    type Item = Found;

    ghost next_gives = { GivesLine };

    ghost remaining = { λ s. at_most (length s.sheet.now - s.at) };

    #[tactic(auto, using(crate::proofs::Judging::ends_later))]
    fn next(&mut self) -> Option<Found> {
        let found = line_at(self.sheet, self.at)?;
        self.at = found.next;
        Some(found)
    }
}

fn lines_from(sheet: &[u8], at: usize) -> Lines<'_>
    ensures { result ≡ record { sheet = sheet.entry; at = at } }
{
    Lines { sheet, at }
}

// Judges what follows the first line: an item's line at each turn, until the last line. There may be `most` numbers.
fn judge_items(sheet: &[u8], from: usize, most: usize) -> Result<usize, Refusal>
    requires { Opened editions sheet.now from most }
    ensures { Judged editions sheet.now result }
{
    // Counted here, since a sheet that ends too early is refused by the count as well.
    let mut lines: usize = 1;
    let mut words: usize = 0;
    let mut total: usize = 0;
    for found in lines_from(sheet, from) {
        match line_says(found.line).ok_or(Refusal::BadSheet(lines))? {
            Says::End { total: said } => {
                if said != total as u64 {
                    return Err(Refusal::BadSheet(lines));
                }
                if found.next < sheet.len() {
                    return Err(Refusal::BadSheet(lines + 1));
                }
                return Ok(words);
            }
            Says::Item {
                numbers,
                words: more,
            } => {
                if most - total < numbers {
                    return Err(Refusal::BadSheet(lines));
                }
                total += numbers;
                words += more;
                lines += 1;
            }
        }
    }
    Err(Refusal::BadSheet(lines))
}

// The sheet's own refusal, whatever the room, or how many words its list has. The edition comes first.
fn judge_sheet(sheet: &[u8]) -> Result<usize, Refusal>
    ensures { Judged editions sheet.now result }
{
    let found = line_at(sheet, 0).ok_or(Refusal::BadSheet(0))?;
    let Line::Gaps { edition, limit } = found.line else {
        return Err(Refusal::BadSheet(0));
    };
    let most = limit_of(edition).ok_or(Refusal::SheetEdition(shown_edition(edition)))?;
    if limit != most as u64 {
        return Err(Refusal::BadSheet(0));
    }
    judge_items(sheet, found.next, most)
}

// Stores the words of a line from a place on, and answers the place after them.
fn store(line: Line, into: &mut [u32], out: usize) -> usize
    requires { Storable line out into.old }
    ensures { Stored line out into.old result into.new }
{
    match line {
        Line::One { number } => {
            into[out] = number as u32;
            out + 1
        }
        Line::Run { first, last } => {
            into[out] = first as u32 + FLAG;
            into[out + 1] = last as u32;
            out + 2
        }
        Line::Gaps { .. } => out,
        Line::End { .. } => out,
    }
}

// Writes the words of the list that a sheet stands for, which is accepted and fits, to the caller's buffer: nothing is on the heap, so `out` says how far it is written.
fn list_into(sheet: &[u8], into: &mut [u32])
    requires { Fits editions sheet.now (length into.old) }
    ensures { Listing editions sheet.now into.old into.new }
{
    let mut out: usize = 0;
    for found in lines_from(sheet, 0) {
        out = store(found.line, into, out);
    }
}

pub fn read_sheet(sheet: &[u8], into: &mut [u32]) -> Result<usize, Refusal>
    ensures { Reads editions sheet.now into.old result into.new }
{
    let words = judge_sheet(sheet)?;
    if into.len() < words {
        return Err(Refusal::NoRoom(words));
    }
    list_into(sheet, into);
    Ok(words)
}
