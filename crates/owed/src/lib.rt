// What a recovery asks of one record and of one lock: whether the log entry is the named instruction's, what the worker is owed, whether
// two are owed the same lock, and whether an owner word is right.
#![tactic(auto)]

ghost use Rattle.std.specs.Prelude.{◌≡◌, ◌||◌, ◌<◌, ◌≤◌, length, eqb};
ghost use Rattle.mask.specs.Mask.{union};
ghost use Rattle.image.specs.Place.{lock};
ghost use Rattle.image.specs.Image.{at, workers, length_of};
ghost use Rattle.image.specs.Inner.Inside.{Inside};
ghost use Rattle.code.specs.Inner.Fits.{fits};
ghost use Rattle.owed.specs.Owed.{owed_of, covers, held_next, set_logged, entry_ok, owner_ok};
ghost use Rattle.owed.specs.Inner.Shared.{sets_in, shared_from};

use code::Op;
use image::Field;

// Whether the active entry logs a store of a set in worker d's owned word.
fn set_logged(image: &[u64], d: usize, set: u64, own: usize) -> bool
    requires { Inside own image.now d }
    ensures { result ≡ set_logged own (at own image.now) d set }
{
    worklog::logged_addr(image, d, own) == image::field_index(Field::Owned, d, own) as u64
        && worklog::logged_value(image, d, own) == set
}

// Whether the active entry logs the store of an instruction, after which `next` is held.
pub fn entry_ok(image: &[u64], d: usize, x: Op, next: u64, own: usize) -> bool
    requires { (Inside own image.now d) × (fits own x) × (next ≡ held_next own (at own image.now) d) }
    ensures { result ≡ entry_ok own (at own image.now) d x }
{
    match x {
        Op::Acquire(_) | Op::Release(_) => set_logged(image, d, next, own),
        Op::Assign(a, _) => {
            worklog::logged_addr(image, d, own) == worklog::words::operand_index(d, a, own) as u64
        }
        _ => false,
    }
}

// Whether the set owned is the one held before a step, or the one after it.
pub fn owned_ok(owned: u64, here: u64, next: u64) -> bool
    ensures { result ≡ (eqb owned here || eqb owned next) }
{
    owned == here || owned == next
}

// The owed set at an instruction: of an acquire the held set after it, since its lock may be taken and not yet owned.
pub fn owed_by(x: Op, next: u64, owned: u64) -> u64
    ensures { result ≡ owed_of x next owned }
{
    match x {
        Op::Acquire(_) => next,
        _ => owned,
    }
}

// Whether every lock of `small` is in `big`.
pub fn covers(big: u64, small: u64) -> bool
    ensures { result ≡ covers big small 64 }
{
    small & big == small
}

// The lowest lock that two of the sets have; 64 where there is none. (A number and no Option: it bounds a loop over the locks below it.)
pub fn shared(sets: &[u64]) -> u64
    ensures { result ≡ shared_from (sets_in sets.now) (length sets.now) 0 64 }
{
    let mut once: u64 = 0;
    let mut twice: u64 = 0;
    for set in sets {
        twice |= once & *set;
        once |= *set;
    }
    twice.trailing_zeros() as u64
}

// The locks of the sets together.
pub fn union(sets: &[u64]) -> u64
    ensures { result ≡ union (sets_in sets.now) (length sets.now) }
{
    let mut all: u64 = 0;
    for set in sets {
        all |= *set;
    }
    all
}

// Whether lock b's owner word is 0 or names a worker that intends it.
pub fn owner_ok(image: &[u64], b: u64, own: usize) -> bool
    requires { (own ≤ 64) × (workers image.now ≤ 8) × (b < 64) × (length image.now ≡ length_of own (workers image.now)) }
    ensures { result ≡ owner_ok own (at own image.now) (workers image.now) b (at own image.now (lock b)) }
{
    let w = image::read_lock(image, b);
    if w == 0 {
        return true;
    }
    w <= image::workers(image)
        && mask::has(
            image::read_field(image, Field::Intent, w as usize - 1, own),
            b,
        )
}
