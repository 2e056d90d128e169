// The lines of a gap sheet: a word and one number or two, each after a tab, then a line feed.
//
//     gaps    2       65536
//     run     5       7
//     one     9
//     end     4
//
// The crates line_reading and line_writing read and write them.

#![tactic(auto)]

#[derive(Clone, Copy)]
pub enum Line {
    // The first line: the sheet's edition, and how many numbers that allows.
    Gaps { edition: u64, limit: u64 },
    // A number that never came.
    One { number: u64 },
    // A run of them.
    Run { first: u64, last: u64 },
    // The last line: how many numbers there are in all.
    End { total: u64 },
}

pub const TAB: u8 = 9;

pub const LINE_FEED: u8 = 10;
