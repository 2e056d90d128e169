// Why a number is lost: the first item of a loss list that covers it. A list is judged whole first, and of one that is accepted the flag alone tells an item. The ends of
// a range are looked at and none of the numbers between them, so that the time is that of the words given.

#![tactic(auto)]

mod look;

ghost use Rattle.std.specs.Prelude.{◌≡◌, Ok};
ghost use Rattle.loss_list.specs.Expand.{items};
ghost use Rattle.why_lost.specs.WhyLost.{asked, why_lost, why_lost_bytes};

use look::search;
use loss_expansion::Judged;
use loss_list::{Cell, FLAG};
use refusal::Refusal;

// The place of the first item of a judged list that covers the number, or none where no item does. A number outside the ring is refused.
#[tactic(auto, unfolding(crate::specs::WhyLost::admitted, crate::specs::WhyLost::answered))]
fn find<C: Cell>(judged: &Judged<'_, C>, number: u32) -> Result<Option<usize>, Refusal>
    ensures { result ≡ asked (Ok judged.now.count) (items 0 (C.words judged.now.list.now)) number }
{
    if FLAG <= number {
        return Err(Refusal::NotSequence(0));
    }
    Ok(search(judged, number))
}

// The list's own refusal comes first, and then what is found.
#[tactic(auto, unfolding(crate::specs::WhyLost::admitted, crate::specs::WhyLost::answered))]
pub fn why_lost(list: &[u32], number: u32) -> Result<Option<usize>, Refusal>
    ensures { result ≡ why_lost list.now number }
{
    let count = loss_expansion::judge(list)?;
    find(&Judged { list, count }, number)
}

// For bytes, by the name that the C function calls.
#[tactic(auto, unfolding(crate::specs::WhyLost::admitted, crate::specs::WhyLost::answered))]
pub fn why_lost_bytes(list: &[u8], number: u32) -> Result<Option<usize>, Refusal>
    ensures { result ≡ why_lost_bytes list.now number }
{
    let count = byte_expansion::judge_bytes(list)?;
    find(&Judged { list, count }, number)
}
