// One turn of a worker: its tests, its plan, at most one store, and the record with the step and turn that the plan names.
#![tactic(auto)]

use image::Edition;
use tally::Tally;
use working::{Cursors, Refusal};
use worklog::{Passing, Plan};

pub mod codes;

ghost use Rattle.std.specs.Prelude.{◌≡◌, true, ℕ, ◌≤◌};
ghost use Rattle.image.specs.Image.{at};
ghost use Rattle.image.specs.Inner.Inside.{Inside};
ghost use Rattle.plan.specs.Turn.{ready};
ghost use Rattle.working.specs.Inner.At.{At};
ghost use Rattle.working.specs.Cursor.{set_at, holding};
ghost use Rattle.working.specs.World.{world};
ghost use Rattle.tally.specs.Tally.{Room};
ghost use Rattle.turn.specs.Inner.Acting.{plan_did, plan_leaves, did_lock, did_held, did_answer, Acts, tested, gate_of};
ghost use Rattle.turn.specs.Call.{answer_of, leaves, outcome_at, outcome};
ghost use Rattle.turn.specs.Counted.{counted};

// What a turn answers.
#[derive(Clone, Copy)]
pub enum Answer {
    // A store was made at this index.
    Stored(usize),
    // There was nothing to store.
    Passed(Passing),
    // The lock is not free: its owner word is not 0.
    Waiting(u64),
    Idle,
    Refused(Refusal),
}

// Whether a worker that is not refused gets a turn.
#[derive(Clone, Copy)]
enum Gate {
    Idle,
    Open,
}

// What the turn of an open worker did, where it is not refused: a store, of a lock's owner word with the lock; or none.
#[derive(Clone, Copy)]
pub enum Did {
    Stored(usize),
    Took(u64),
    Freed(u64),
    Passed(Passing),
    Waiting(u64),
}

// What it did, and the step and turn behind it.
#[derive(Clone, Copy)]
pub struct Acted {
    pub did: Did,
    pub step: u8,
    pub turn: u8,
}

#[derive(Clone, Copy)]
pub struct Turned {
    pub answer: Answer,
    pub cursors: Cursors,
}

// A plan done, with the step and turn behind it: the plan's, or where it waits those that the worker has.
#[inline(always)]
fn done(image: &mut [u64], p: Plan, s: u8, t: u8, left: &mut u64) -> Acted
    requires { did_lock (plan_did p) }
    ensures did { result.did ≡ plan_did p }
    ensures after { (n : ℕ) (c : Cursors) (d : ℕ) → At c d s t
        → world image.new (holding (did_held result.did c.held) (set_at c d result.step result.turn)) left.new
        ≡ plan_leaves n (world image.old c left.old) d p }
{
    match p {
        Plan::Store {
            at,
            value,
            step,
            turn,
        } => {
            image::store(image, at, value, left);
            Acted {
                did: Did::Stored(at),
                step,
                turn,
            }
        }
        Plan::Take {
            lock,
            value,
            step,
            turn,
        } => {
            image::store(image, image::lock_index(lock), value, left);
            Acted {
                did: Did::Took(lock),
                step,
                turn,
            }
        }
        Plan::Free { lock, step, turn } => {
            image::store(image, image::lock_index(lock), 0, left);
            Acted {
                did: Did::Freed(lock),
                step,
                turn,
            }
        }
        Plan::Pass { why, step, turn } => Acted {
            did: Did::Passed(why),
            step,
            turn,
        },
        Plan::Wait(b) => Acted {
            did: Did::Waiting(b),
            step: s,
            turn: t,
        },
    }
}

// The turn of worker d, which is ready at step s, turn t, put into its caller: for the loop of a run.
#[inline(always)]
pub fn turn_in_place(image: &mut [u64], d: usize, s: u8, t: u8, own: usize, left: &mut u64) -> Acted
    requires { (Inside own image.old d) × (ready own (at own image.old) d s t ≡ true) }
    ensures lock { did_lock result.did }
    ensures acts { (c : Cursors) → At c d s t
        → Acts own (world image.old c left.old) d result.did
        (world image.new (holding (did_held result.did c.held) (set_at c d result.step result.turn)) left.new) }
{
    let p = plan::next(image, d, own, s, t);
    done(image, p, s, t, left)
}

// The same as a call, for who makes turns one by one.
#[inline(never)]
pub fn turn_on(image: &mut [u64], d: usize, s: u8, t: u8, own: usize, left: &mut u64) -> Acted
    requires { (Inside own image.old d) × (ready own (at own image.old) d s t ≡ true) }
    ensures lock { did_lock result.did }
    ensures acts { (c : Cursors) → At c d s t
        → Acts own (world image.old c left.old) d result.did
        (world image.new (holding (did_held result.did c.held) (set_at c d result.step result.turn)) left.new) }
{
    turn_in_place(image, d, s, t, own, left)
}

// The locks held after it.
pub fn held_after(x: Did, held: u64) -> u64
    requires { did_lock x }
    ensures { result ≡ did_held x held }
{
    match x {
        Did::Took(b) => mask::with(held, b),
        Did::Freed(b) => mask::without(held, b),
        Did::Stored(_) | Did::Passed(_) | Did::Waiting(_) => held,
    }
}

// The tally with a turn counted that passed.
pub fn passed(why: Passing, t: Tally) -> Tally
    requires { Room t }
    ensures { result ≡ counted (Answer.Passed why) t }
{
    match why {
        Passing::Jump => tally::jump(t),
        Passing::AlreadyFree => tally::already_free(t),
        Passing::Others => tally::others(t),
    }
}

// The tally with a turn counted by what it did.
// The three stores have an arm each: with one arm for them a run of several workers takes 2 to 5 instructions of 40 to 106 a turn more.
pub fn counted(x: Did, t: Tally) -> Tally
    requires { Room t }
    ensures { (n : ℕ) → result ≡ counted (did_answer n x) t }
{
    match x {
        Did::Stored(_) => tally::stored(t),
        Did::Took(_) => tally::stored(t),
        Did::Freed(_) => tally::stored(t),
        Did::Passed(why) => passed(why, t),
        Did::Waiting(_) => tally::waiting(t),
    }
}

// What it answers.
fn answer_of(x: Did) -> Answer
    requires { did_lock x }
    ensures { (n : ℕ) → result ≡ did_answer n x }
{
    match x {
        Did::Stored(at) => Answer::Stored(at),
        Did::Took(b) | Did::Freed(b) => Answer::Stored(image::lock_index(b)),
        Did::Passed(why) => Answer::Passed(why),
        Did::Waiting(b) => Answer::Waiting(b),
    }
}

// What a turn of worker d answers by what it did, with the record behind it.
pub fn told(c: Cursors, d: usize, acted: Acted) -> Turned
    requires { did_lock acted.did }
    ensures answer { (n : ℕ) → result.answer ≡ did_answer n acted.did }
    ensures cursors { result.cursors ≡ holding (did_held acted.did c.held) (set_at c d acted.step acted.turn) }
{
    let Acted { did, step, turn } = acted;
    Turned {
        answer: answer_of(did),
        cursors: Cursors {
            held: held_after(did, c.held),
            ..c.place(d, step, turn)
        },
    }
}

// Whether a worker that the image has gets a turn: an idle one does not, nor one whose cursor is on no turn of its section.
fn worker_tests(image: &[u64], c: Cursors, d: usize, own: usize) -> Result<Gate, Refusal>
    requires { Inside own image.now d }
    ensures { (k : ℕ) → result ≡ gate_of (outcome_at own (world image.now c k) d) }
{
    if c.idle(d) {
        return Ok(Gate::Idle);
    }
    if !plan::ready(image, d, own, c.step[d], c.turn[d]) {
        return Err(Refusal::Cursor(d));
    }
    Ok(Gate::Open)
}

// The tests of a turn: causes 10 and 1, then those of the worker.
fn tests(image: &[u64], c: Cursors, d: usize, e: Edition) -> Result<Gate, Refusal>
    ensures { (k : ℕ) → result ≡ gate_of (outcome e.mark e.own (world image.now c k) d) }
{
    if !image::header_ok(image, e) {
        return Err(Refusal::Image);
    }
    if image::workers(image) <= d as u64 {
        return Err(Refusal::Worker);
    }
    worker_tests(image, c, d, e.own)
}

// The turn of a worker that gets one.
fn open_turn(image: &mut [u64], c: Cursors, d: usize, own: usize, left: &mut u64) -> Turned
    requires { (Inside own image.old d) × (tested own image.old c d ≡ true) }
    ensures answer { result.answer ≡ answer_of own (outcome_at own (world image.old c left.old) d) }
    ensures after { world image.new result.cursors left.new
        ≡ leaves own (world image.old c left.old) d (outcome_at own (world image.old c left.old) d) }
{
    let acted = turn_on(image, d, c.step[d], c.turn[d], own, left);
    told(c, d, acted)
}

// One turn of worker d.
pub fn turn(image: &mut [u64], c: Cursors, d: usize, e: Edition, left: &mut u64) -> Turned
    ensures answer { result.answer ≡ answer_of e.own (outcome e.mark e.own (world image.old c left.old) d) }
    ensures after { world image.new result.cursors left.new
        ≡ leaves e.own (world image.old c left.old) d (outcome e.mark e.own (world image.old c left.old) d) }
{
    match tests(image, c, d, e) {
        Ok(Gate::Open) => open_turn(image, c, d, e.own, left),
        Ok(Gate::Idle) => Turned {
            answer: Answer::Idle,
            cursors: c,
        },
        Err(r) => Turned {
            answer: Answer::Refused(r),
            cursors: c,
        },
    }
}
