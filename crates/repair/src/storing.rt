// The stores of a repair: slot by slot for a caller who looks at them; made by recovery in their four stages.
ghost use Rattle.std.specs.Prelude.{◌≡◌, ℕ, ◌-◌, ◌<◌, ◌≤◌, List, length};
ghost use Rattle.image.specs.Place.{Store};
ghost use Rattle.image.specs.Image.{put_all};
ghost use Rattle.repair.specs.Plan.{rows};
ghost use Rattle.repair.specs.Repair.{lock_slot, intent_slot, withdraw_slot, relock_slot, slot_at, slot_of, slot_put, slot_left, Slots};

use crate::Repair;
use image::{Field, Word};

// A store in lock b's owner word, where b is in the set.
fn lock_slot(set: u64, b: u64, value: u64) -> Option<Word>
    requires { b < 64 }
    ensures { (n : ℕ) → result ≡ slot_of n (lock_slot set value b) }
{
    mask::has(set, b).then_some(Word {
        at: image::lock_index(b),
        value,
    })
}

// Worker d's intent.
fn intent_slot(r: Repair, d: usize, own: usize) -> Option<Word>
    requires { (d < 8) × (own ≤ 64) }
    ensures { result ≡ slot_of own (intent_slot r d) }
{
    ((d as u64) < r.workers).then_some(Word {
        at: image::field_index(Field::Intent, d, own),
        value: r.owed[d],
    })
}

// Worker d's count, where its section is withdrawn.
fn withdraw_slot(r: Repair, d: usize, own: usize) -> Option<Word>
    requires { (d < 8) × (own ≤ 64) }
    ensures { result ≡ slot_of own (withdraw_slot r d) }
{
    mask::has(r.withdrawn, d as u64).then_some(Word {
        at: image::field_index(Field::Count, d, own),
        value: 0,
    })
}

// Lock b's owner word, where worker d is owed the lock.
fn relock_slot(r: Repair, d: usize, b: u64) -> Option<Word>
    requires { (d < 8) × (b < 64) }
    ensures { (n : ℕ) → result ≡ slot_of n (relock_slot r d b) }
{
    lock_slot(r.owed[d], b, d as u64 + 1)
}

// Slot c: 64 unlocks, 8 intents, 8 withdrawals, 8 times 64 relocks.
#[tactic(auto, unfolding(crate::specs::Repair::slot_at))]
pub fn slot_at(r: Repair, c: usize, own: usize) -> Option<Word>
    requires { own ≤ 64 }
    ensures { result ≡ slot_of own (slot_at r c) }
{
    match c {
        0..=63 => lock_slot(r.freed, c as u64, 0),
        64..=71 => intent_slot(r, c - 64, own),
        72..=79 => withdraw_slot(r, c - 72, own),
        80..=591 => relock_slot(r, (c - 80) / 64, (c - 80) as u64 % 64),
        _ => None,
    }
}

// Makes the store of a slot.
fn store_slot(image: &mut [u64], s: Option<Word>, left: &mut u64)
    ensures image { image.new ≡ slot_put left.old image.old s }
    ensures left { left.new ≡ slot_left left.old s }
{
    if let Some(w) = s {
        image::store(image, w.at, w.value, left);
    }
}

// Stores a value in the owner word of each lock of a set, rising. (The loop goes from lock to lock and counts none, so no `for` is plainer.)
fn store_locks(image: &mut [u64], set: u64, value: u64, left: &mut u64)
    ensures image { (n : ℕ) → image.new ≡ put_all n left.old image.old (rows (lock_slot set value) 0 64) }
    ensures left { left.new ≡ left.old - length (rows (lock_slot set value) 0 64) }
{
    // Kept in a local in the loop: the compiler can't tell `left` from a word of the image.
    let mut k = *left;
    let mut rest = set;
    while rest != 0 {
        let b = rest.trailing_zeros() as u64;
        image::store(image, image::lock_index(b), value, &mut k);
        rest = mask::without(rest, b);
    }
    *left = k;
}

// Makes the stores of the slots of the eight workers.
fn store_workers<F: Fn(usize) -> Option<Word>>(image: &mut [u64], slot: F, left: &mut u64)
    requires { (d : ℕ) → d < 8 → F.pre slot d }
    ensures { (n : ℕ) (f : ℕ → List Store) → Slots n f (F.post slot)
        → (image.new ≡ put_all n left.old image.old (rows f 0 8)) × (left.new ≡ left.old - length (rows f 0 8)) }
{
    for d in 0..8 {
        store_slot(image, slot(d), left);
    }
}

// Gives each worker the locks that it is owed.
fn store_relocks(image: &mut [u64], r: Repair, left: &mut u64)
    ensures image { (n : ℕ) → image.new ≡ put_all n left.old image.old (rows (slot_at r) 80 512) }
    ensures left { left.new ≡ left.old - length (rows (slot_at r) 80 512) }
{
    for (d, set) in r.owed.iter().enumerate() {
        store_locks(image, *set, d as u64 + 1, left);
    }
}

// Makes the stores of a repair.
pub fn store_all(image: &mut [u64], r: Repair, own: usize, left: &mut u64)
    requires { own ≤ 64 }
    ensures image { image.new ≡ put_all own left.old image.old (rows (slot_at r) 0 592) }
    ensures left { left.new ≡ left.old - length (rows (slot_at r) 0 592) }
{
    store_locks(image, r.freed, 0, left);
    store_workers(image, |d| intent_slot(r, d, own), left);
    store_workers(image, |d| withdraw_slot(r, d, own), left);
    store_relocks(image, r, left);
}
