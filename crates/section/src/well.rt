// The quick test of a section: one pass, without an array, in which no jump may go past an acquire or a release. So the held set at a jump's target is
// the jump's own, and need not be looked up.
ghost use Rattle.std.specs.Prelude.{◌≡◌, true, length};
ghost use Rattle.code.specs.Form.{lock_ok};
ghost use Rattle.section.specs.Check.{code_of, check};
ghost use Rattle.section.specs.Inner.Well.{furthest, settled, fair};

use super::sets::length_ok;
use code::{Op, formed, held_after, op_of};

// The furthest step that a jump names, with one instruction more.
fn furthest(until: u64, x: Op) -> u64
    ensures { result ≡ furthest until x }
{
    match x {
        Op::Jump(_, b) => until.max(b),
        _ => until,
    }
}

// Whether no jump before step i goes past an acquire or a release there.
fn settled(until: u64, i: usize, x: Op) -> bool
    ensures { result ≡ settled until i x }
{
    match x {
        Op::Acquire(_) | Op::Release(_) => until <= i as u64,
        _ => true,
    }
}

// An instruction at step i, with h held before it: causes 6, 7 and 8, and that no jump goes past a change of the held set. (The first three tests are
// `judged`'s too: a function for both would change the code that every section passes.)
fn fair(until: u64, i: usize, h: u64, x: Op) -> bool
    requires { lock_ok x ≡ true }
    ensures { result ≡ fair until i h x }
{
    rules::bracketed(i, h, x)
        && rules::ordered(h, x)
        && rules::guarded(h, x)
        && settled(until, i, x)
}

// Whether one pass finds nothing wrong. False says nothing: the check as it is decides.
pub(crate) fn well(words: &[u64], own: u16) -> bool
    ensures { result ≡ true → check own (length words.now) (code_of words.now) ≡ Ok tt }
{
    let n = words.len();
    if !length_ok(n) {
        return false;
    }
    let mut h: u64 = 0;
    let mut until: u64 = 0;
    for (i, &w) in words.iter().enumerate() {
        let x = op_of(w);
        if !formed(w, x, i, n, own) || !fair(until, i, h, x) {
            return false;
        }
        until = furthest(until, x);
        h = held_after(h, x);
    }
    true
}
