// Sections of instructions: the check of causes 4 to 9, and the pass over the held sets by itself. The pass stands in sets.rt, one step against
// causes 6 to 9 in judge.rt, and in well.rt the quick test that the check makes first.
#![tactic(auto)]

mod judge;
mod sets;
mod well;

ghost use Rattle.std.specs.Prelude.{◌≡◌, ℕ, ◌<◌, ◌≤◌, length, get_or};
ghost use Rattle.section.specs.Check.{code_of, first_of, use_of, check};
ghost use Rattle.section.specs.Sets.{sets_answer, sets_leave};
ghost use Rattle.section.specs.Inner.Pass.{answer_by, Judgeable, held_left, Checked};

use judge::use_at;
use sets::{fill, length_ok};
use well::well;

// Why a section is refused: the first cause that it fails, with the step.
#[derive(Clone, Copy)]
pub enum Fault {
    // The number of steps is not 3 to 64.
    Length,
    // The kind is unknown, or a field outside its range or position.
    Malformed(usize),
    // The first step does not acquire, a later one holds nothing, or a finish holds something.
    Unbracketed(usize),
    // An acquire is not above all that is held, or a release's lock is not held.
    Unordered(usize),
    // A cell is named whose lock is not held.
    Unguarded(usize),
    // A jump goes to a step with another held set.
    Unlevel(usize),
}

// All steps against causes 6 to 9.
fn uses(words: &[u64], held: &[u64]) -> Result<(), Fault>
    requires { (i : ℕ) → i < length words.now → Judgeable words.now held.now i }
    ensures { result ≡ first_of (use_of (code_of words.now)) 0 (length words.now) }
{
    for i in 0..words.len() {
        use_at(words, held, i)?;
    }
    Ok(())
}

// The pass, and where the whole check is asked what stands behind it: cause 4, then 5 over all steps, then 6 to 9 step by step. The held set
// before each step that the pass comes past is left in `held`. (One function, so that the machine code has the pass once and without a call.)
fn checked(words: &[u64], own: u16, held: &mut [u64], whole: bool) -> Result<(), Fault>
    requires { 64 ≤ length held.old }
    ensures { Checked (answer_by whole own (length words.now) (code_of words.now)) words.now held.old result
        held.new }
{
    if !length_ok(words.len()) {
        return Err(Fault::Length);
    }
    fill(words, own, held)?;
    if whole { uses(words, held) } else { Ok(()) }
}

// The check of a section: it passes, or the first of causes 4 to 9. The held set before each step is left in `held`: of all
// steps, or where cause 5 refuses one of those before it, or where cause 4 does of none. The other words stay.
pub fn check_held(words: &[u64], own: u16, held: &mut [u64]) -> Result<(), Fault>
    requires { 64 ≤ length held.old }
    ensures verdict { result ≡ check own (length words.now) (code_of words.now) }
    ensures sets { (j : ℕ) → get_or held.new j 0
        ≡ held_left own (length words.now) (code_of words.now) (code_of held.old) j }
{
    checked(words, own, held, true)
}

// The same, for a caller that does not ask for the held sets: only where the quick test finds something are they worked out.
pub fn check(words: &[u64], own: u16) -> Result<(), Fault>
    ensures { result ≡ check own (length words.now) (code_of words.now) }
{
    if well(words, own) {
        return Ok(());
    }
    let mut held = [0u64; 64];
    check_held(words, own, &mut held)
}

// The pass by itself: refused with cause 4, or with 5 at the lowest step; else `held` gets the held set before each step, also where
// causes 6 to 9 would refuse, and 0 from the count up. Where it is refused, all its words are 0.
pub fn held_sets(words: &[u64], own: u16, held: &mut [u64; 64]) -> Result<(), Fault>
    ensures verdict { result ≡ sets_answer own (length words.now) (code_of words.now) }
    ensures sets { (j : ℕ) → get_or held.new j 0
        ≡ sets_leave own (length words.now) (code_of words.now) j }
{
    let v = checked(words, own, held, false);
    let kept = if v.is_ok() { words.len() } else { 0 };
    held[kept..].fill(0);
    v
}
