// Turns counted: in the waits of a lock and of a worker, or in the worker's turns that did not wait.
ghost use Rattle.std.specs.Prelude.{◌≡◌};
ghost use Rattle.sums.specs.Inner.Counting.{raised, counted};

use crate::Sums;
use lines::Made;
use turn::Answer;

// So many more at an index, if the slice has it; a number stops at the largest.
#[tactic(auto, unfolding(crate::specs::Inner::Counting::raised))]
fn raise(xs: &mut [u64], i: usize, by: u64)
    ensures { xs.new ≡ raised xs.old i by }
{
    // By its index: of a slice lent by `get_mut` no contract says what stands in it afterwards.
    if i < xs.len() {
        xs[i] = xs[i].saturating_add(by);
    }
}

impl Sums {
    // The turns that a piece of a line made.
    pub fn count(&mut self, made: Made)
        ensures { self.new ≡ counted made self.old }
    {
        let d = made.worker;
        let n = made.times;
        match made.answer {
            Answer::Stored(_) | Answer::Passed(_) => raise(&mut self.moved, d, n),
            Answer::Waiting(lock) => {
                raise(&mut self.locks, lock as usize, n);
                raise(&mut self.waited, d, n);
            }
            Answer::Idle | Answer::Refused(_) => {}
        }
    }
}
