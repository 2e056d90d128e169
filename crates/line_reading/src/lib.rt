// Reading a line of a sheet where it stands.

#![tactic(auto)]

ghost use Rattle.std.specs.Prelude.{◌≡◌, ◌<◌, length};
ghost use Rattle.line_reading.specs.Reading.{LineAt, FieldAt, NumbersAt, MakesOfOne, MakesOfTwo};

use decimal::{Number, number_at};
use sheet_line::{LINE_FEED, Line, TAB};
use wire::byte_at;

// A line that was read, and where the next begins.
#[derive(Clone, Copy)]
pub struct Found {
    pub line: Line,
    pub next: usize,
}

// The numbers of a line, of which there are one or two, and where the next line begins.
#[derive(Clone, Copy)]
struct Numbers {
    first: u64,
    second: Option<u64>,
    next: usize,
}

impl Numbers {
    // The line that one number makes.
    fn one<F: FnOnce(u64) -> Line>(self, line: F) -> Option<Found>
        requires { F.IsAlwaysCallable line }
        ensures { MakesOfOne (F.post line) self result }
    {
        match self.second {
            None => Some(Found {
                line: line(self.first),
                next: self.next,
            }),
            Some(_) => None,
        }
    }

    // The line that two numbers make.
    fn two<F: FnOnce(u64, u64) -> Line>(self, line: F) -> Option<Found>
        requires { F.IsAlwaysCallable line }
        ensures { MakesOfTwo (F.post line) self result }
    {
        let second = self.second?;
        Some(Found {
            line: line(self.first, second),
            next: self.next,
        })
    }
}

// The number from a place on that stands after a tab.
fn field_at(sheet: &[u8], at: usize) -> Option<Number>
    ensures { FieldAt sheet.now at result }
{
    if byte_at(sheet, at) != TAB {
        return None;
    }
    number_at(sheet, at + 1)
}

// The numbers from a place to the end of the line.
// By places of the whole sheet, which is what is answered.
#[tactic(auto, using(crate::proofs::Reading::numbers_single))]
fn numbers_at(sheet: &[u8], at: usize) -> Option<Numbers>
    ensures { NumbersAt sheet.now at result }
{
    let first = field_at(sheet, at)?;
    if byte_at(sheet, first.next) == LINE_FEED {
        return Some(Numbers {
            first: first.value,
            second: None,
            next: first.next + 1,
        });
    }
    let second = field_at(sheet, first.next)?;
    if byte_at(sheet, second.next) != LINE_FEED {
        return None;
    }
    Some(Numbers {
        first: first.value,
        second: Some(second.value),
        next: second.next + 1,
    })
}

// The line at a place, with 2^32 for a number of more than 32 bits.
pub fn line_at(sheet: &[u8], at: usize) -> Option<Found>
    ensures { LineAt sheet.now at result }
{
    let rest = sheet.get(at..)?;
    if rest.starts_with(b"one") {
        return numbers_at(sheet, at + 3)?.one(|number| Line::One { number });
    }
    if rest.starts_with(b"run") {
        return numbers_at(sheet, at + 3)?.two(|first, last| Line::Run { first, last });
    }
    if rest.starts_with(b"end") {
        return numbers_at(sheet, at + 3)?.one(|total| Line::End { total });
    }
    if rest.starts_with(b"gaps") {
        return numbers_at(sheet, at + 4)?.two(|edition, limit| Line::Gaps { edition, limit });
    }
    None
}
