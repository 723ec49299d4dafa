// One step of a section against causes 6 to 9, in this order.
ghost use Rattle.std.specs.Prelude.{◌≡◌, true, length};
ghost use Rattle.section.specs.Check.{code_of, judged, use_of};
ghost use Rattle.code.specs.Form.{lock_ok};
ghost use Rattle.rules.specs.Inner.Looked.{lands, level_in};
ghost use Rattle.section.specs.Inner.Pass.{Judgeable};

use super::Fault;
use code::{Op, op_of};

// An instruction at step i, with h held before it, against causes 6 to 9.
fn judged(x: Op, i: usize, h: u64, held: &[u64]) -> Result<(), Fault>
    requires { (lock_ok x ≡ true) × (lands (length held.now) x ≡ true) }
    ensures { result ≡ judged i h x (level_in held.now h x) }
{
    if !rules::bracketed(i, h, x) {
        return Err(Fault::Unbracketed(i));
    }
    if !rules::ordered(h, x) {
        return Err(Fault::Unordered(i));
    }
    if !rules::guarded(h, x) {
        return Err(Fault::Unguarded(i));
    }
    if !rules::level(held, h, x) {
        return Err(Fault::Unlevel(i));
    }
    Ok(())
}

// Step i against causes 6 to 9.
pub(crate) fn use_at(words: &[u64], held: &[u64], i: usize) -> Result<(), Fault>
    requires { Judgeable words.now held.now i }
    ensures { result ≡ use_of (code_of words.now) i }
{
    judged(op_of(words[i]), i, held[i], held)
}
