// How many turns a section needs to its end, those not counted that wait: along the steps that it goes through (path.rt); from a step on, before
// they are known, the fewest and the most (ahead.rt); and after a recovery, from its worker's record (record.rt).
#![tactic(auto)]

pub mod ahead;
pub mod path;
pub mod record;

ghost use Rattle.std.specs.Prelude.{zero};
ghost use Rattle.needs.specs.Codes.{refusal_cause};

use working::Cause;

// The fewest turns and the most.
#[derive(Clone, Copy)]
pub struct Span {
    pub fewest: u64,
    pub most: u64,
}

impl Span {
    // Of nothing that is left.
    pub const NONE: Span = Span { fewest: 0, most: 0 };
}

// Why a question about what a worker's section still needs is refused.
#[derive(Clone, Copy)]
pub enum Refusal {
    // The image's length or header is wrong: cause 10.
    Image,
    // It has no such worker: cause 1.
    Worker,
    // The worker's record is not sound: cause 12.
    Record,
}

impl Cause for Refusal {
    ghost cause_of = { refusal_cause };

    ghost value_of = { λ _. zero };

    fn cause(self) -> u64 {
        match self {
            Refusal::Image => 10,
            Refusal::Worker => 1,
            Refusal::Record => 12,
        }
    }

    fn value(self) -> u64 {
        0
    }
}
