// Submitting a section to a worker: causes 10, 1, 2, 3, then the check that `section` has by itself, then the stores.
#![tactic(auto)]

use image::Edition;
use working::{Cursors, Refusal};

mod submitting;

ghost use Rattle.std.specs.Prelude.{◌≡◌, ◌≤◌};
ghost use Rattle.working.specs.World.{world};
ghost use Rattle.intake.specs.Submit.{submit_answer, submit_leaves};

// Whether a section is taken, and where the workers stand after the call.
#[derive(Clone, Copy)]
pub struct Entered {
    pub answer: Result<(), Refusal>,
    pub cursors: Cursors,
}

// Submits a section for worker d, with its number and its eight arguments. The worker is put at step 0, turn 0 in copies of the arrays before it is
// known whether the section is taken, and the record is made of them at the end: the bytes are stored well before the arrays are loaded whole, since a
// processor that loads an array whole waits for a byte of it that it has just stored.
pub fn submit(
    image: &mut [u64],
    c: Cursors,
    d: usize,
    number: u64,
    args: &[u64; 8],
    words: &[u64],
    e: Edition,
    left: &mut u64,
) -> Entered
    requires { 8 ≤ e.own }
    ensures answer { result.answer ≡ submit_answer e.mark e.own (world image.old c left.old) d number words.now }
    ensures after { world image.new result.cursors left.new
        ≡ submit_leaves e.own (world image.old c left.old) d number args.now words.now
        (submit_answer e.mark e.own (world image.old c left.old) d number words.now) }
{
    let mut step = c.step;
    let mut turn = c.turn;
    working::put(&mut step, &mut turn, d, 0, 0);
    let answer = submitting::judge(image, c, d, number, words, e);
    if answer.is_err() {
        return Entered { answer, cursors: c };
    }
    submitting::store_section(image, d, number, args, words, e.own, left);
    Entered {
        answer,
        cursors: Cursors {
            step,
            turn,
            held: c.held,
        },
    }
}
