// The rules of one step: causes 6 to 9, each the test of an instruction with what is held before it.
#![tactic(auto)]

ghost use Rattle.std.specs.Prelude.{◌≡◌, true, length};
ghost use Rattle.code.specs.Form.{lock_ok};
ghost use Rattle.rules.specs.Rules.{covered, covered_in, begins, goes_on, bracketed, ordered, guarded};
ghost use Rattle.rules.specs.Inner.Looked.{lands, level_in};

use code::{Expr, Op};

// Whether word number x is an own word or has its lock held. Most words are cells of held locks, so that is asked first, by a
// shift that is right for them and within its range for all.
fn covered(h: u64, x: u64) -> bool
    ensures { result ≡ covered h x }
{
    mask::has(h, x / 8 % 64) || 512 <= x
}

fn covered_in(h: u64, e: Expr) -> bool
    ensures { result ≡ covered_in h e }
{
    match e {
        Expr::Literal(_, _) => true,
        Expr::Sum(b, c) | Expr::Difference(b, c) | Expr::Less(b, c) => {
            covered(h, b) && covered(h, c)
        },
    }
}

// Cause 6 at the first step.
fn begins(x: Op) -> bool
    ensures { result ≡ begins x }
{
    matches!(x, Op::Acquire(_))
}

// Cause 6 at a later step. (With one arm for the four, causes 6 and 8 took 45 instructions a step for 34.)
fn goes_on(h: u64, x: Op) -> bool
    ensures { result ≡ goes_on h x }
{
    match x {
        Op::Acquire(_) => h != 0,
        Op::Release(_) => h != 0,
        Op::Assign(_, _) => h != 0,
        Op::Jump(_, _) => h != 0,
        Op::Finish => h == 0,
        Op::Unknown => false,
    }
}

// Cause 6.
pub fn bracketed(i: usize, h: u64, x: Op) -> bool
    ensures { result ≡ bracketed i h x }
{
    if i == 0 { begins(x) } else { goes_on(h, x) }
}

// Cause 7.
pub fn ordered(h: u64, x: Op) -> bool
    requires { lock_ok x ≡ true }
    ensures { result ≡ ordered h x }
{
    match x {
        Op::Acquire(a) => mask::above(h, a),
        Op::Release(a) => mask::has(h, a),
        _ => true,
    }
}

// Cause 8.
pub fn guarded(h: u64, x: Op) -> bool
    ensures { result ≡ guarded h x }
{
    match x {
        Op::Assign(a, e) => covered(h, a) && covered_in(h, e),
        Op::Jump(a, _) => covered(h, a),
        _ => true,
    }
}

// Cause 9, with the held set before each step in `held`.
pub fn level(held: &[u64], h: u64, x: Op) -> bool
    requires { lands (length held.now) x ≡ true }
    ensures { result ≡ level_in held.now h x }
{
    match x {
        Op::Jump(_, b) => held[b as usize] == h,
        _ => true,
    }
}
