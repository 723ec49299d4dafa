// Which images a recovery accepts: every worker's record is sound (cause 12), and every lock is right (cause 13). The tests only read; where
// they pass, they have found the set of locks that each worker is owed.
#![tactic(auto)]

pub mod locks;
pub mod records;

ghost use Rattle.soundness.specs.Codes.{cause_of as recovery_cause, value_of as recovery_value};

use working::Cause;

// Why a recovery is refused.
#[derive(Clone, Copy)]
pub enum Refusal {
    // The image's length or header is wrong.
    Image,
    // This worker's record is not sound.
    Record(usize),
    // Two workers are owed this lock, or its owner word names no worker that intends it.
    Lock(u64),
}

impl Cause for Refusal {
    ghost cause_of = { recovery_cause };

    ghost value_of = { recovery_value };

    fn cause(self) -> u64 {
        match self {
            Refusal::Image => 10,
            Refusal::Record(_) => 12,
            Refusal::Lock(_) => 13,
        }
    }

    // The worker or lock that goes with it; 0 where there is none.
    fn value(self) -> u64 {
        match self {
            Refusal::Image => 0,
            Refusal::Record(d) => d as u64,
            Refusal::Lock(b) => b,
        }
    }
}
