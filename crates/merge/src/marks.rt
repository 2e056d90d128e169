// Which of the numbers from a step on a list has, marked one by one: so a run whose items stand in any order is told in one look at them.
ghost use Rattle.std.specs.Prelude.{◌≡◌, ◌-◌};
ghost use Rattle.merge.specs.Walk.{Whole, Sets, Marks, Leads};

use super::items::items_from;
use loss_list::Cell;

// Marks the places from `low` up to `high`, as far as there are any. By places, and whether there is one is asked at each: where the marks end, taken beforehand, is one branch more for each item, which none foresees.
fn set(seen: &mut [bool], low: usize, high: usize)
    ensures { Sets low high seen.old seen.new }
{
    for k in low..high {
        if seen.len() <= k {
            return;
        }
        seen[k] = true;
    }
}

// How many steps after `at` a later step is; none for an earlier one.
fn past(at: u32, step: u32) -> usize
    ensures { result ≡ step - at }
{
    step.saturating_sub(at) as usize
}

// Marks the numbers of a list from `at` on.
pub(crate) fn mark<C: Cell>(cells: &[C], oldest: u32, at: u32, seen: &mut [bool])
    requires { Whole oldest (C.words cells.now) }
    ensures { Marks oldest (C.words cells.now) at seen.old seen.new }
{
    for (_, span) in items_from(cells, oldest, 0) {
        set(seen, past(at, span.from), past(at, span.to + 1));
    }
}

// How many are marked from the first on.
pub(crate) fn leading(seen: &[bool]) -> usize
    ensures { Leads seen.now result }
{
    seen.iter()
        .position(|&marked| !marked)
        .unwrap_or(seen.len())
}
