// The working record as it crosses: an array of steps, one of turns, and the mask of the locks held.
ghost use Rattle.std.specs.Prelude.{◌≡◌};
ghost use Rattle.working.specs.Cursor.{cursors};

use working::Cursors;

pub fn lent(step: &[u8; 8], turn: &[u8; 8], held: u64) -> Cursors
    ensures { result ≡ cursors step.now turn.now held }
{
    Cursors {
        step: *step,
        turn: *turn,
        held,
    }
}

pub fn leave(c: Cursors, step: &mut [u8; 8], turn: &mut [u8; 8], held: &mut u64)
    ensures { cursors step.new turn.new held.new ≡ c }
{
    // An array of a struct is stored by a name of its own: the borrow checker does not follow `*step = c.step`.
    let s = c.step;
    *step = s;
    let t = c.turn;
    *turn = t;
    *held = c.held;
}
