// Writing the sheet of a list. The list is judged whole, and its sheet measured, before a byte is written.

#![tactic(auto)]

ghost use Rattle.std.specs.Prelude.{◌≡◌, ◌++◌, ◌≤◌, length, drop};
ghost use Rattle.std.specs.Iterator.{YieldsFirst, item_count};
ghost use Rattle.loss_list.specs.Expand.{items};
ghost use Rattle.loss_list.specs.Walk.{IsSound};
ghost use Rattle.sheet.specs.Sheet.{edition, first_line, Writes};
ghost use Rattle.sheet_writing.specs.Walk.{lines_left, sheet_text};

use line_writing::{length_of, put_line};
use loss_expansion::{Judged, judge};
use loss_list::{FLAG, LIMIT};
use refusal::Refusal;
use sheet::EDITION;
use sheet_line::Line;

// The first line of a sheet.
fn first_line() -> Line
    ensures { result ≡ first_line edition }
{
    Line::Gaps {
        edition: EDITION,
        limit: LIMIT as u64,
    }
}

// The lines of the items of a list with no fault, from a place on: the flag alone tells an item.
#[derive(Drop)]
struct Lines<'a> {
    list: &'a [u32],
    place: usize,
}

impl Iterator for Lines<'_> {
    type Item = Line;

    ghost can_next = { λ s. IsSound (items s.place (drop s.place s.list.now)) };

    ghost next_gives = { YieldsFirst lines_left };

    ghost remaining = { item_count lines_left };

    #[tactic(auto, using(loss_steps::proofs::Heads::sound_more, crate::proofs::Writing::plain_line, crate::proofs::Writing::range_line, crate::proofs::Writing::no_lines))]
    fn next(&mut self) -> Option<Line> {
        let list = self.list;
        let place = self.place;
        let word = *list.get(place)?;
        if word < FLAG {
            self.place = place + 1;
            return Some(Line::One {
                number: u64::from(word),
            });
        }
        self.place = place + 2;
        Some(Line::Run {
            first: u64::from(word - FLAG),
            last: u64::from(list[place + 1]),
        })
    }
}

// The lines of the items of a list that is judged.
fn lines_of<'a>(judged: &Judged<'a, u32>) -> Lines<'a>
    ensures starts { result ≡ record { list = judged.now.list; place = 0 } }
    ensures sound { IsSound (items 0 judged.now.list.now) }
{
    Lines {
        list: judged.list,
        place: 0,
    }
}

// The bytes of the sheet of a list that is judged.
fn sheet_length(judged: &Judged<'_, u32>) -> usize
    ensures { result ≡ length (sheet_text edition judged.now.list.now judged.now.count) }
{
    let last = Line::End {
        total: judged.count as u64,
    };
    let mut bytes = length_of(first_line()) + length_of(last);
    for line in lines_of(judged) {
        bytes += length_of(line);
    }
    bytes
}

// Writes that sheet to a buffer with room for it, the caller's: nothing is on the heap, so `out` says how far it is written.
fn sheet_into(judged: &Judged<'_, u32>, into: &mut [u8])
    requires room { length (sheet_text edition judged.now.list.now judged.now.count) ≤ length into.old }
    ensures { into.new ≡ sheet_text edition judged.now.list.now judged.now.count ++ drop (length (sheet_text edition judged.now.list.now judged.now.count)) into.old }
{
    put_line(first_line(), into);
    let mut out = length_of(first_line());
    for line in lines_of(judged) {
        put_line(line, &mut into[out..]);
        out += length_of(line);
    }
    let last = Line::End {
        total: judged.count as u64,
    };
    put_line(last, &mut into[out..]);
}

pub fn write_sheet(list: &[u32], into: &mut [u8]) -> Result<usize, Refusal>
    ensures { Writes edition list.now into.old result into.new }
{
    let count = judge(list)?;
    let judged = Judged { list, count };
    let bytes = sheet_length(&judged);
    if into.len() < bytes {
        return Err(Refusal::NoRoom(bytes));
    }
    sheet_into(&judged, into);
    Ok(bytes)
}
