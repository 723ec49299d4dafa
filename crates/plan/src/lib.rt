// The plan of a turn: cause 11, and for a turn to which it does not apply at most one store with the step and turn after it. Nothing is
// stored here. Each instruction's turns stand in steps.rt.
#![tactic(auto)]

pub mod steps;

ghost use Rattle.std.specs.Prelude.{◌≡◌, true};
ghost use Rattle.image.specs.Image.{at};
ghost use Rattle.image.specs.Inner.Inside.{Inside};
ghost use Rattle.working.specs.Cursor.{on};
ghost use Rattle.plan.specs.Turn.{ready, turn_at};
ghost use Rattle.plan.specs.Inner.Plan.{plan_of};

use image::Field;
use worklog::Plan;

// What a release reports of its lock's owner word: it named this worker and is freed, it was 0, or it is another's.
#[derive(Clone, Copy)]
pub enum Report {
    Freed,
    AlreadyFree,
    Others,
}

// Whether step s, turn t is a turn of the section in worker d's record.
#[tactic(auto, unfolding(crate::specs::Turn::ready))]
pub fn ready(image: &[u64], d: usize, own: usize, s: u8, t: u8) -> bool
    requires { Inside own image.now d }
    ensures { result ≡ ready own (at own image.now) d s t }
{
    let k = image::read_field(image, Field::Count, d, own);
    if !(3..=64).contains(&k) || k <= s as u64 {
        return false;
    }
    let w = image::read_step(image, d, s as usize, own);
    code::well_formed(w, s as usize, k as usize, own as u16) && (t as u64) < code::turns(w)
}

// What worker d's turn is to do at step s, turn t, which is ready.
#[inline(always)]
pub fn next(image: &[u64], d: usize, own: usize, s: u8, t: u8) -> Plan
    requires { (Inside own image.now d) × (ready own (at own image.now) d s t ≡ true) }
    ensures { result ≡ plan_of own (turn_at own (at own image.now) d (on s t)) }
{
    let w = image::read_step(image, d, s as usize, own);
    steps::op_turn(image, d, own, s, t, code::op_of(w))
}
