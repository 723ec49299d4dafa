// What a run keeps: its turns, waits and stores, and the releases that found their lock already free or another's, in one
// tally record. The record is lent by &mut to one thin counting function for each answer of a turn, over a core that counts by
// value: so document 01 names it, and so each answer has a function in each layer. Several turns of a kind are counted at once by value alone.
#![tactic(auto)]

ghost use Rattle.std.specs.Prelude.{◌≡◌, ◌<◌, ◌≤◌};
ghost use Rattle.tally.specs.Tally.{none, with_stored, with_jump, with_already_free, with_others, with_waiting, Room};
ghost use Rattle.tally.specs.Tally.{with_waits, RoomFor};
ghost use Rattle.tally.specs.Inner.Passes.{no_passes, passed, with_passed_jump, with_passed_free, with_passed_others, with_turns};

#[derive(Clone, Copy)]
pub struct Tally {
    // The turns taken.
    pub turns: u64,
    // The turns that waited for a lock.
    pub waits: u64,
    // The turns that stored a word.
    pub stores: u64,
    // The releases that found their lock already free.
    pub free: u64,
    // The releases that found their lock another's.
    pub others: u64,
}

// Of several turns those that stored nothing and did not wait: jumps, and releases that found their lock already free, or another's.
#[derive(Clone, Copy)]
pub struct Passes {
    pub jumps: u16,
    pub free: u16,
    pub others: u16,
}

// The tally before the first turn.
pub fn zero() -> Tally
    ensures { result ≡ none }
{
    Tally {
        turns: 0,
        waits: 0,
        stores: 0,
        free: 0,
        others: 0,
    }
}

// A turn that stored a word: the core, by value.
fn counted_stored(t: Tally) -> Tally
    requires { Room t }
    ensures { result ≡ with_stored t }
{
    Tally {
        turns: t.turns + 1,
        stores: t.stores + 1,
        ..t
    }
}

// A jump: the core, by value.
fn counted_jump(t: Tally) -> Tally
    requires { Room t }
    ensures { result ≡ with_jump t }
{
    Tally {
        turns: t.turns + 1,
        ..t
    }
}

// A release that found its lock already free: the core, by value.
fn counted_already_free(t: Tally) -> Tally
    requires { Room t }
    ensures { result ≡ with_already_free t }
{
    Tally {
        turns: t.turns + 1,
        free: t.free + 1,
        ..t
    }
}

// A release that found its lock another's: the core, by value.
fn counted_others(t: Tally) -> Tally
    requires { Room t }
    ensures { result ≡ with_others t }
{
    Tally {
        turns: t.turns + 1,
        others: t.others + 1,
        ..t
    }
}

// A turn that waited: the core, by value.
fn counted_waiting(t: Tally) -> Tally
    requires { Room t }
    ensures { result ≡ with_waiting t }
{
    Tally {
        turns: t.turns + 1,
        waits: t.waits + 1,
        ..t
    }
}

// Counts a turn that stored a word, in the tally lent.
fn count_stored(t: &mut Tally)
    requires { Room t.old }
    ensures { t.new ≡ with_stored t.old }
{
    *t = counted_stored(*t);
}

// Counts a jump, in the tally lent.
fn count_jump(t: &mut Tally)
    requires { Room t.old }
    ensures { t.new ≡ with_jump t.old }
{
    *t = counted_jump(*t);
}

// Counts a release that found its lock already free, in the tally lent.
fn count_already_free(t: &mut Tally)
    requires { Room t.old }
    ensures { t.new ≡ with_already_free t.old }
{
    *t = counted_already_free(*t);
}

// Counts a release that found its lock another's, in the tally lent.
fn count_others(t: &mut Tally)
    requires { Room t.old }
    ensures { t.new ≡ with_others t.old }
{
    *t = counted_others(*t);
}

// Counts a turn that waited, in the tally lent.
fn count_waiting(t: &mut Tally)
    requires { Room t.old }
    ensures { t.new ≡ with_waiting t.old }
{
    *t = counted_waiting(*t);
}

// The tally after a turn that stored a word: lent to the counting function, and taken back.
pub fn stored(t: Tally) -> Tally
    requires { Room t }
    ensures { result ≡ with_stored t }
{
    let mut u = t;
    count_stored(&mut u);
    u
}

// The tally after a jump, the same way.
pub fn jump(t: Tally) -> Tally
    requires { Room t }
    ensures { result ≡ with_jump t }
{
    let mut u = t;
    count_jump(&mut u);
    u
}

// The tally after a release that found its lock already free, the same way.
pub fn already_free(t: Tally) -> Tally
    requires { Room t }
    ensures { result ≡ with_already_free t }
{
    let mut u = t;
    count_already_free(&mut u);
    u
}

// The tally after a release that found its lock another's, the same way.
pub fn others(t: Tally) -> Tally
    requires { Room t }
    ensures { result ≡ with_others t }
{
    let mut u = t;
    count_others(&mut u);
    u
}

// The tally after a turn that waited, the same way.
pub fn waiting(t: Tally) -> Tally
    requires { Room t }
    ensures { result ≡ with_waiting t }
{
    let mut u = t;
    count_waiting(&mut u);
    u
}

// The tally after k turns that waited.
pub fn waits(t: Tally, k: u64) -> Tally
    requires { RoomFor k t }
    ensures { result ≡ with_waits k t }
{
    Tally {
        turns: t.turns + k,
        waits: t.waits + k,
        ..t
    }
}

// No turn that passed.
pub fn no_passes() -> Passes
    ensures { result ≡ no_passes }
{
    Passes {
        jumps: 0,
        free: 0,
        others: 0,
    }
}

// One more: a jump.
pub fn passed_jump(p: Passes) -> Passes
    requires { passed p < 65535 }
    ensures { result ≡ with_passed_jump p }
{
    Passes {
        jumps: p.jumps + 1,
        ..p
    }
}

// A release that found its lock already free.
pub fn passed_free(p: Passes) -> Passes
    requires { passed p < 65535 }
    ensures { result ≡ with_passed_free p }
{
    Passes {
        free: p.free + 1,
        ..p
    }
}

// One that found its lock another's.
pub fn passed_others(p: Passes) -> Passes
    requires { passed p < 65535 }
    ensures { result ≡ with_passed_others p }
{
    Passes {
        others: p.others + 1,
        ..p
    }
}

// The tally after k turns of which these passed and the others stored a word each.
pub fn turns(t: Tally, k: u64, p: Passes) -> Tally
    requires { RoomFor k t × (passed p ≤ k) }
    ensures { result ≡ with_turns k p t }
{
    let passed = p.jumps as u64 + p.free as u64 + p.others as u64;
    Tally {
        turns: t.turns + k,
        stores: t.stores + (k - passed),
        free: t.free + p.free as u64,
        others: t.others + p.others as u64,
        ..t
    }
}
