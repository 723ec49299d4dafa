// An instruction's turns back to back, from its first: decoded once, the same stores in the same order. Each instruction tests its own word, by constants.
ghost use Rattle.std.specs.Prelude.{◌≡◌, ℕ, ◌+◌, ◌-◌, ◌<◌, ◌≤◌};
ghost use Rattle.image.specs.Inner.Inside.{Inside};
ghost use Rattle.tally.specs.declared.Tally.{Tally};
ghost use Rattle.tally.specs.Inner.Passes.{passed, with_turns};
ghost use Rattle.stretch.specs.Inner.Single.{single, Turns};
ghost use Rattle.stretch.specs.Inner.Whole.{closed_image, Counted, Here, Tried};

use crate::{Walk, assigning, locks};
use code::{ACQUIRE, FINISH, JUMP, Op, RELEASE};
use image::Field;
use tally::Passes;
use worklog::words;

// A jump's one turn, where it is ready.
fn jump(
    image: &[u64],
    d: usize,
    s: u8,
    own: usize,
    k: u64,
    w: u64,
    a: u64,
    b: u64,
    held: u64,
    passes: Passes,
) -> Option<Walk>
    requires { Here own d s k image.now w (Op.Jump a b) × (passed passes < 65535) }
    ensures { (left : ℕ) → Tried own d s k held passes image.now left image.now left result }
{
    if !code::fits::<JUMP>(w, own as u16) || k <= b || b <= s as u64 {
        return None;
    }
    let step = if words::word(image, d, a, own) == 0 {
        b as u8
    } else {
        s + 1
    };
    Some(Walk {
        turns: code::JUMP_TURNS,
        step,
        turn: 0,
        passes: tally::passed_jump(passes),
        held,
    })
}

// A finish's stores: the number as finished, then 0 in the pc and in the count.
#[tactic(auto, using(crate::proofs::Running::field_lt))]
fn close(image: &mut [u64], d: usize, own: usize, left: &mut u64)
    requires { Inside own image.old d }
    ensures image { image.new ≡ closed_image own d image.old left.old }
    ensures left { left.new ≡ left.old - 1 - 1 - 1 }
{
    let number = image::read_field(image, Field::Number, d, own);
    image::store_inside(
        image,
        image::field_index(Field::Finished, d, own),
        number,
        left,
    );
    image::store_inside(image, image::field_index(Field::Pc, d, own), 0, left);
    image::store_inside(image, image::field_index(Field::Count, d, own), 0, left);
}

// A finish's three turns, where its first is ready.
fn finish(
    image: &mut [u64],
    d: usize,
    s: u8,
    own: usize,
    k: u64,
    w: u64,
    held: u64,
    passes: Passes,
    left: &mut u64,
) -> Option<Walk>
    requires { Here own d s k image.old w Op.Finish × (passed passes < 65535) }
    ensures { Tried own d s k held passes image.old left.old image.new left.new result }
{
    if !code::fits::<FINISH>(w, own as u16) || k != s as u64 + 1 {
        return None;
    }
    close(image, d, own, left);
    Some(Walk {
        turns: code::FINISH_TURNS,
        step: 0,
        turn: 255,
        passes,
        held,
    })
}

// The turns of the instruction at step s of k, from the first, where that is ready.
fn instruction(
    image: &mut [u64],
    d: usize,
    s: u8,
    own: usize,
    k: u64,
    held: u64,
    passes: Passes,
    left: &mut u64,
) -> Option<Walk>
    requires { Counted own d k image.old × (s < k) × (passed passes < 65535) }
    ensures { Tried own d s k held passes image.old left.old image.new left.new result }
{
    let w = image::read_step(image, d, s as usize, own);
    let inside = s as u64 + 1 < k;
    match code::op_of(w) {
        Op::Acquire(a) if inside && code::fits::<ACQUIRE>(w, own as u16) => Some(locks::acquire(
            image, d, s, own, a, held, passes, left,
        )),
        Op::Release(a) if inside && code::fits::<RELEASE>(w, own as u16) => Some(locks::release(
            image, d, s, own, a, held, passes, left,
        )),
        Op::Assign(a, e) => assigning::assign(image, d, s, own, k, w, a, e, held, passes, left),
        Op::Jump(a, b) => jump(image, d, s, own, k, w, a, b, held, passes),
        Op::Finish => finish(image, d, s, own, k, w, held, passes, left),
        _ => None,
    }
}

// Instructions one after another, from step s of k, each from its first turn to its last, while their first turns are ready and six rounds are left. What falls
// short is left to the plain way, so that this loop has no call in it. The stores left are kept in a local meanwhile, and the count is read once.
// (It ends by the turn, by the rounds left or by an instruction that is not ready: no index is counted.)
fn instructions_of(
    image: &mut [u64],
    d: usize,
    s: u8,
    own: usize,
    k: u64,
    rounds: u16,
    held: u64,
    left: &mut u64,
) -> Walk
    requires { Counted own d k image.old × (s < k) }
    ensures turns { (y : Tally) → Turns own d result.turns (single image.old left.old s 0 held y)
        (single image.new left.new result.step result.turn result.held (with_turns result.turns result.passes y)) }
    ensures passes { passed result.passes ≤ result.turns }
    ensures most { result.turns ≤ rounds }
{
    let mut stores = *left;
    let mut step = s;
    let mut turn: u8 = 0;
    let mut locks = held;
    let mut passes = tally::no_passes();
    let mut rest = rounds as u64;
    while turn == 0 && code::MOST_TURNS <= rest {
        let Some(x) = instruction(image, d, step, own, k, locks, passes, &mut stores) else {
            break;
        };
        step = x.step;
        turn = x.turn;
        locks = x.held;
        passes = x.passes;
        rest -= x.turns;
    }
    *left = stores;
    Walk {
        turns: rounds as u64 - rest,
        step,
        turn,
        passes,
        held: locks,
    }
}

// The same of the section in worker d's record, from step s, turn t on. None where t is amid an instruction, the count is no section's, or step s is not in it.
pub fn instructions(
    image: &mut [u64],
    d: usize,
    s: u8,
    t: u8,
    own: usize,
    rounds: u16,
    held: u64,
    left: &mut u64,
) -> Walk
    requires { Inside own image.old d }
    ensures turns { (y : Tally) → Turns own d result.turns (single image.old left.old s t held y)
        (single image.new left.new result.step result.turn result.held (with_turns result.turns result.passes y)) }
    ensures passes { passed result.passes ≤ result.turns }
    ensures most { result.turns ≤ rounds }
{
    let k = image::read_field(image, Field::Count, d, own);
    if t != 0 || k < 3 || 64 < k || k <= s as u64 {
        return Walk {
            turns: 0,
            step: s,
            turn: t,
            passes: tally::no_passes(),
            held,
        };
    }
    instructions_of(image, d, s, own, k, rounds, held, left)
}
