// Gap sheets: a loss list as text, for the shift clerks.
//
//     gaps    2       65536
//     run     5       7
//     one     9
//     end     4
//
// Here is the rule, with what may be relied on. The crates sheet_writing and sheet_reading follow it.

#![tactic(auto)]

// The edition of the sheets that are written; its limit is the list's.
// By number, since a sheet may name any, and one that is not read is refused by its number.
pub const EDITION: u64 = 2;

// The first edition, which is read as well, and its limit.
pub const FIRST_EDITION: u64 = 1;

pub const FIRST_LIMIT: usize = 8192;
