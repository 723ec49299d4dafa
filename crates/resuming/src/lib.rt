// Where the workers go on after a recovery: each section that was begun at the turn of its logged store.
#![tactic(auto)]

ghost use Rattle.std.specs.Prelude.{◌≡◌};
ghost use Rattle.image.specs.Image.{at, workers};
ghost use Rattle.image.specs.Inner.Inside.{Inside};
ghost use Rattle.working.specs.Cursor.{step_no, turn_no};
ghost use Rattle.resuming.specs.Resumed.{target_turn, resumed, resumed_all};
ghost use Rattle.soundness.specs.Sound.{eight, owed_at};
ghost use Rattle.soundness.specs.Inner.Reading.{Legible, Restorable};

use code::{Op, op_of};
use image::Field;
use working::Cursors;

// Where a worker goes on: the step and the turn.
#[derive(Clone, Copy)]
struct Resumed {
    step: u8,
    turn: u8,
}

// The turn of an instruction's target store.
fn target_turn(x: Op) -> u8
    ensures { result ≡ target_turn x }
{
    match x {
        Op::Acquire(_) => 5,
        Op::Release(_) | Op::Assign(_, _) => 3,
        _ => 0,
    }
}

// Where worker d goes on; at step 0, turn 255, where it is idle.
fn goes_on(image: &[u64], d: usize, own: usize) -> Resumed
    requires { (Inside own image.now d) × (Legible own (at own image.now) d) }
    ensures step { result.step ≡ step_no (resumed own (at own image.now) d) }
    ensures turn { result.turn ≡ turn_no (resumed own (at own image.now) d) }
{
    let pc = image::read_field(image, Field::Pc, d, own);
    if pc == 0 {
        return Resumed { step: 0, turn: 255 };
    }
    let step = (pc % 9223372036854775808) as u8 - 1;
    let x = op_of(image::read_step(image, d, step as usize, own));
    Resumed {
        step,
        turn: target_turn(x),
    }
}

// Where all workers go on, with the locks held that they are owed.
pub fn resumed_all(image: &[u64], sets: [u64; 8], own: usize) -> Cursors
    requires { (Restorable own image.now) × (sets ≡ eight (owed_at own (at own image.now) (workers image.now))) }
    ensures { result ≡ resumed_all own (at own image.now) (workers image.now) }
{
    let n = image::workers(image) as usize;
    let mut step = [0u8; 8];
    let mut turn = [255u8; 8];
    for d in 0..n {
        let r = goes_on(image, d, own);
        step[d] = r.step;
        turn[d] = r.turn;
    }
    Cursors {
        step,
        turn,
        held: owed::union(&sets[..n]),
    }
}
