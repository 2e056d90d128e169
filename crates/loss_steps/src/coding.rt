// Numbers counted one by one: in what order they stand, how many words they are written as, and which runs are ranges.
ghost use Rattle.std.specs.Prelude.{◌≡◌};
ghost use Rattle.loss_list.specs.Compress.{range_flag};
ghost use Rattle.loss_steps.specs.Coding.{step_of};

use loss_list::FLAG;
use refusal::Refusal;
use ring::RingNumber;
use seq_number::SeqNumber;

// Where a walk over numbers stands: the last of them, and whether it is in a run with the one before.
#[derive(Clone, Copy)]
pub struct Coding {
    pub last: u32,
    pub running: bool,
}

// A number counted: where the walk stands then, and the words that the number adds.
#[derive(Clone, Copy)]
pub struct Counted {
    pub coding: Coding,
    pub words: usize,
}

impl Coding {
    // With the number at `place` counted.
    pub fn with(self, place: usize, this: u32) -> Result<Counted, Refusal>
        ensures { result ≡ step_of self place this }
    {
        let last = SeqNumber(self.last);
        if FLAG <= this {
            return Err(Refusal::NotSequence(place));
        }
        if !last.lt(SeqNumber(this)) {
            return Err(Refusal::NotIncreasing(place));
        }
        if this != last.add(1).0 {
            return Ok(Counted {
                coding: Coding {
                    last: this,
                    running: false,
                },
                words: 1,
            });
        }
        let coding = Coding {
            last: this,
            running: true,
        };
        let words = usize::from(!self.running);
        Ok(Counted { coding, words })
    }
}

// The flag of a run's first word, where the last number is so many steps after the first: two neighbours are no range.
#[tactic(auto, unfolding(loss_list::specs::Compress::range_flag))]
pub fn range_flag(steps: usize) -> u32
    ensures { result ≡ range_flag steps }
{
    if steps <= 1 { 0 } else { FLAG }
}
