// Turns of one worker back to back, in a run in which no other is open: an instruction's turns at once, or one turn as it is.
#![tactic(auto)]

mod assigning;
mod locks;
mod logged;
pub mod whole;

ghost use Rattle.std.specs.Prelude.{◌≡◌, true, ◌≤◌, IfSome};
ghost use Rattle.image.specs.Image.{at};
ghost use Rattle.image.specs.Inner.Inside.{Inside};
ghost use Rattle.plan.specs.Turn.{ready};
ghost use Rattle.tally.specs.Tally.{RoomFor};
ghost use Rattle.stretch.specs.Inner.Stretch.{more_by, Stretched, Attempted};

use tally::{Passes, Tally};
use turn::Did;

// So many turns, and what they leave beside the image: the worker's step and turn, the locks held, and the tally.
#[derive(Clone, Copy)]
pub struct Stretch {
    pub turns: u16,
    pub step: u8,
    pub turn: u8,
    pub held: u64,
    pub tally: Tally,
}

// What whole instructions leave beside the image: so many turns, those of them that passed, the worker's step and turn, and the locks held. Their tally is
// worked out by the caller: a record of five words that is handed back in memory would be waited for.
#[derive(Clone, Copy)]
pub struct Walk {
    pub turns: u64,
    pub step: u8,
    pub turn: u8,
    pub passes: Passes,
    pub held: u64,
}

// How many more of the rounds left a turn alone takes by what it did: none, or all of them where it waits, since no other worker is there to free the lock.
fn more(x: Did, rest: u16) -> u16
    ensures { result ≡ more_by x rest }
{
    match x {
        Did::Waiting(_) => rest,
        _ => 0,
    }
}

// One turn as it is; where it waited, the other waits are counted at once.
fn one(
    image: &mut [u64],
    d: usize,
    s: u8,
    t: u8,
    own: usize,
    rounds: u16,
    held: u64,
    tally: Tally,
    left: &mut u64,
) -> Stretch
    requires { (Inside own image.old d) × (ready own (at own image.old) d s t ≡ true) × (1 ≤ rounds) × RoomFor rounds tally }
    ensures stretch { Stretched own d s t held tally image.old left.old image.new left.new result }
    ensures most { result.turns ≤ rounds }
{
    let acted = turn::turn_on(image, d, s, t, own, left);
    let did = acted.did;
    let waits = more(did, rounds - 1);
    let turns = waits + 1;
    Stretch {
        turns,
        step: acted.step,
        turn: acted.turn,
        held: turn::held_after(did, held),
        tally: turn::counted(did, tally::waits(tally, waits as u64)),
    }
}

// One turn of worker d, which is open at step s, turn t, where it is ready.
pub fn plain(
    image: &mut [u64],
    d: usize,
    s: u8,
    t: u8,
    own: usize,
    rounds: u16,
    held: u64,
    tally: Tally,
    left: &mut u64,
) -> Option<Stretch>
    requires { (Inside own image.old d) × (1 ≤ rounds) × RoomFor rounds tally }
    ensures attempt { Attempted own d s t held tally image.old left.old image.new left.new result }
    ensures most { IfSome result (λ x. x.turns ≤ rounds) }
{
    if !plan::ready(image, d, own, s, t) {
        return None;
    }
    Some(one(image, d, s, t, own, rounds, held, tally, left))
}
