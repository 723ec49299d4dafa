// An acquire's and a release's turns back to back.
ghost use Rattle.std.specs.Prelude.{◌≡◌, ◌+◌, ◌-◌, ◌<◌, ◌≤◌};
ghost use Rattle.image.specs.Inner.Inside.{Inside};
ghost use Rattle.tally.specs.Inner.Passes.{passed};
ghost use Rattle.stretch.specs.Inner.Whole.{Fetched, Made};
ghost use Rattle.stretch.specs.Inner.Locks.{took_image, disowned_image, unwanted_image, found_passes};

use crate::{Walk, logged};
use code::Op;
use image::Field;
use tally::Passes;

// An acquire's turns 1 to 5 where its lock is free: the owner word, and the owned mask in a logged store.
fn take(image: &mut [u64], d: usize, s: u8, own: usize, a: u64, left: &mut u64)
    requires { (Inside own image.old d) × (a < 64) }
    ensures image { image.new ≡ took_image own d s a image.old left.old }
    ensures left { left.new ≡ left.old - 1 - 1 - 1 - 1 - 1 }
{
    image::store_inside(image, image::lock_index(a), d as u64 + 1, left);
    let has = mask::with(image::read_field(image, Field::Owned, d, own), a);
    logged::stores(
        image,
        d,
        s,
        own,
        image::field_index(Field::Owned, d, own),
        has,
        left,
    );
}

// An acquire's six turns; where the lock is not free its first alone, and the worker waits at the second.
#[tactic(auto, using(crate::proofs::Running::fetched_acquire, crate::proofs::Running::fetched_step, crate::proofs::Running::field_lt))]
pub fn acquire(
    image: &mut [u64],
    d: usize,
    s: u8,
    own: usize,
    a: u64,
    held: u64,
    passes: Passes,
    left: &mut u64,
) -> Walk
    requires { Fetched own d s image.old (Op.Acquire a) }
    ensures made { Made own d s held passes image.old left.old image.new left.new result }
    ensures next { result.step ≤ s + 1 }
{
    let intent = image::field_index(Field::Intent, d, own);
    let wants = mask::with(image::read_field(image, Field::Intent, d, own), a);
    image::store_inside(image, intent, wants, left);
    if image::read_lock(image, a) != 0 {
        return Walk {
            turns: 1,
            step: s,
            turn: 1,
            passes,
            held,
        };
    }
    take(image, d, s, own, a, left);
    Walk {
        turns: code::ACQUIRE_TURNS,
        step: s + 1,
        turn: 0,
        passes,
        held: mask::with(held, a),
    }
}

// A release's turns 0 to 3: the owned mask without the lock, in a logged store.
#[tactic(auto, using(crate::proofs::Running::field_lt))]
fn disown(image: &mut [u64], d: usize, s: u8, own: usize, a: u64, left: &mut u64)
    requires { (Inside own image.old d) × (a < 64) }
    ensures image { image.new ≡ disowned_image own d s a image.old left.old }
    ensures left { left.new ≡ left.old - 1 - 1 - 1 - 1 }
{
    let has = mask::without(image::read_field(image, Field::Owned, d, own), a);
    logged::stores(
        image,
        d,
        s,
        own,
        image::field_index(Field::Owned, d, own),
        has,
        left,
    );
}

// A release's last turn: the intent without the lock.
#[tactic(auto, using(crate::proofs::Running::field_lt))]
fn unwant(image: &mut [u64], d: usize, own: usize, a: u64, left: &mut u64)
    requires { (Inside own image.old d) × (a < 64) }
    ensures image { image.new ≡ unwanted_image own d a image.old left.old }
    ensures left { left.new ≡ left.old - 1 }
{
    let intent = image::field_index(Field::Intent, d, own);
    let wants = mask::without(image::read_field(image, Field::Intent, d, own), a);
    image::store_inside(image, intent, wants, left);
}

// One more release that passed, by the owner word that it found.
fn found(word: u64, passes: Passes) -> Passes
    requires { passed passes < 65535 }
    ensures { result ≡ found_passes word passes }
{
    if word == 0 {
        return tally::passed_free(passes);
    }
    tally::passed_others(passes)
}

// A release's six turns. The owner word is first asked whether it is the worker's, which it nearly always is.
#[tactic(auto, using(crate::proofs::Running::fetched_release, crate::proofs::Running::fetched_step))]
pub fn release(
    image: &mut [u64],
    d: usize,
    s: u8,
    own: usize,
    a: u64,
    held: u64,
    passes: Passes,
    left: &mut u64,
) -> Walk
    requires { Fetched own d s image.old (Op.Release a) × (passed passes < 65535) }
    ensures made { Made own d s held passes image.old left.old image.new left.new result }
    ensures next { result.step ≤ s + 1 }
{
    disown(image, d, s, own, a, left);
    let word = image::read_lock(image, a);
    if word == d as u64 + 1 {
        image::store_inside(image, image::lock_index(a), 0, left);
        unwant(image, d, own, a, left);
        return Walk {
            turns: code::RELEASE_TURNS,
            step: s + 1,
            turn: 0,
            passes,
            held: mask::without(held, a),
        };
    }
    unwant(image, d, own, a, left);
    Walk {
        turns: code::RELEASE_TURNS,
        step: s + 1,
        turn: 0,
        passes: found(word, passes),
        held,
    }
}
