// The turns of a worker that alone is open, in a round of a run: made back to back where they can be, as many as fit in the rounds left.
ghost use Rattle.std.specs.Prelude.{◌≡◌, ◌+◌, ◌<◌, ◌≤◌};
ghost use Rattle.image.specs.Inner.Inside.{Inside};
ghost use Rattle.tally.specs.Tally.{RoomFor};
ghost use Rattle.tally.specs.Inner.Passes.{passed};
ghost use Rattle.working.specs.Cursor.{set_at};
ghost use Rattle.run.specs.Inner.Alone.{went_on, WentAlone};

use stretch::whole::instructions;
use stretch::{Stretch, Walk, plain};
use tally::Tally;
use working::Cursors;

// A stretch with whole instructions more.
fn went(x: Stretch, y: Walk) -> Stretch
    requires { RoomFor y.turns x.tally × (passed y.passes ≤ y.turns) × (x.turns + y.turns ≤ 65535) }
    ensures { result ≡ went_on x y }
{
    Stretch {
        turns: x.turns + y.turns as u16,
        step: y.step,
        turn: y.turn,
        held: y.held,
        tally: tally::turns(x.tally, y.turns, y.passes),
    }
}

// The turns of worker d, which is open at step s, turn t: whole instructions; where there is none, one turn as it is, with whole instructions behind it. No
// turn where its next is refused. (Whole instructions are called twice: so the compiler leaves them a function of their own, whose loop has all registers.)
pub fn turns(
    image: &mut [u64],
    d: usize,
    s: u8,
    t: u8,
    own: usize,
    rounds: u16,
    held: u64,
    tally: Tally,
    left: &mut u64,
) -> Stretch
    requires { (Inside own image.old d) × (1 ≤ rounds) × RoomFor rounds tally }
    ensures went { WentAlone own d s t held tally image.old left.old image.new left.new result }
    ensures most { result.turns ≤ rounds }
{
    let start = Stretch {
        turns: 0,
        step: s,
        turn: t,
        held,
        tally,
    };
    let x = instructions(image, d, s, t, own, rounds, held, left);
    if x.turns != 0 {
        return went(start, x);
    }
    let Some(y) = plain(image, d, s, t, own, rounds, held, tally, left) else {
        return start;
    };
    let z = instructions(
        image,
        d,
        y.step,
        y.turn,
        own,
        rounds - y.turns,
        y.held,
        left,
    );
    went(y, z)
}

// Worker d put at step s, turn t, in a record that has it idle: an idle worker's numbers are not stored again.
pub fn settle(c: &mut Cursors, d: usize, s: u8, t: u8)
    requires { d < 8 }
    ensures { (r : Cursors) → c.old ≡ set_at r d 0 255 → c.new ≡ set_at r d s t }
{
    if s != 0 || t != 255 {
        c.step[d] = s;
        c.turn[d] = t;
    }
}
