// The pass over the steps of a section: the held set before each of them, worked out once. A jump's target is looked up there.
ghost use Rattle.std.specs.Prelude.{◌≡◌, ◌≤◌, length};
ghost use Rattle.section.specs.Sets.{length_ok};
ghost use Rattle.section.specs.Check.{code_of, first_of, form_of};
ghost use Rattle.section.specs.Inner.Pass.{Checked};

use super::Fault;
use code::{held_past, well_formed};

// Whether a section may have n steps: cause 4.
pub(crate) fn length_ok(n: usize) -> bool
    ensures { result ≡ length_ok n }
{
    (3..=64).contains(&n)
}

// The pass: refused with cause 5 at the first step that fails it. `held` gets the held set before each step that it comes past.
pub(crate) fn fill(words: &[u64], own: u16, held: &mut [u64]) -> Result<(), Fault>
    requires { length words.now ≤ length held.old }
    ensures { Checked (first_of (form_of own (length words.now) (code_of words.now)) 0 (length words.now)) words.now held.old result
        held.new }
{
    let n = words.len();
    let mut h: u64 = 0;
    for (i, &w) in words.iter().enumerate() {
        if !well_formed(w, i, n, own) {
            return Err(Fault::Malformed(i));
        }
        held[i] = h;
        h = held_past(h, w);
    }
    Ok(())
}
