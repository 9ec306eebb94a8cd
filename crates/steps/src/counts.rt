// What a run counts.
ghost use Rattle.std.specs.Prelude.{◌≡◌, ◌-◌, ◌≤◌};
ghost use Rattle.commit.specs.Commit.{raised_by};
ghost use Rattle.refusal.specs.Refusal.{max_schedule};
ghost use Rattle.steps.specs.Counts.{AtMost, Addable, added_to};
ghost use Rattle.steps.specs.Fast.{counts_after};
ghost use Rattle.steps.specs.Inner.{Grown};

use crate::Turn;
use effect::types::Outcome;
use std::ops::Add;

// How many entries were executed, how many of them raised an exception, and how many found their word in the decode
// cache.
#[derive(Clone, Copy, Default)]
pub struct Counts {
    pub executed: u32,
    pub raised: u32,
    pub reused: u32,
}

// How many exceptions an outcome is.
fn raised_by(outcome: Outcome) -> u32
    ensures { (result ≡ raised_by outcome) × (result ≤ 1) }
{
    outcome.is_err() as u32
}

impl Counts {
    // The counts after one more entry of the schedule.
    pub fn after(self, turn: Turn) -> Counts
        requires { AtMost (max_schedule - 1) self }
        ensures { (result ≡ counts_after self turn) × Grown self result }
    {
        match turn {
            Turn::Idle => self,
            Turn::Unfetched(outcome) => Counts {
                executed: self.executed + 1,
                raised: self.raised + raised_by(outcome),
                ..self
            },
            Turn::Instruction(outcome, reused) => Counts {
                executed: self.executed + 1,
                raised: self.raised + raised_by(outcome),
                reused: self.reused + u32::from(reused),
            },
        }
    }
}

// The counts of both.
impl Add for Counts {
    type Output = Counts;

    ghost can_add = { λ n m. Addable n m };

    ghost add_gives = { λ n m r. r ≡ added_to n m };

    fn add(self, more: Counts) -> Counts {
        Counts {
            executed: self.executed + more.executed,
            raised: self.raised + more.raised,
            reused: self.reused + more.reused,
        }
    }
}
