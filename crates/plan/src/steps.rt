// One turn of an instruction: the store that document 01 names, as a plan.
ghost use Rattle.std.specs.Prelude.{◌≡◌, ℕ, ◌+◌, ◌<◌, ◌≤◌};
ghost use Rattle.image.specs.Image.{at};
ghost use Rattle.image.specs.Inner.Inside.{Inside};
ghost use Rattle.code.specs.Inner.Fits.{ranged, fits};
ghost use Rattle.plan.specs.Turn.{lock_turn, acquire_turn, unlock_turn, release_turn, finish_turn, op_turn};
ghost use Rattle.plan.specs.Report.{report_of};
ghost use Rattle.plan.specs.Inner.Plan.{plan_of};

use crate::Report;
use code::{Expr, Op};
use image::Field;
use worklog::{Passing, Plan, words};

// An acquire's turn 1: the lock is taken where it is free.
fn lock_turn(image: &[u64], d: usize, own: usize, a: u64, s: u8) -> Plan
    requires { (Inside own image.now d) × (a < 64) }
    ensures { result ≡ plan_of own (lock_turn own (at own image.now) d a s) }
{
    if image::read_lock(image, a) != 0 {
        return Plan::Wait(a);
    }
    Plan::Take {
        lock: a,
        value: d as u64 + 1,
        step: s,
        turn: 2,
    }
}

pub fn acquire_turn(image: &[u64], d: usize, own: usize, a: u64, s: u8, t: u8) -> Plan
    requires { (Inside own image.now d) × (a < 64) × (s < 64) × (t < 6) }
    ensures { result ≡ plan_of own (acquire_turn own (at own image.now) d a s t) }
{
    match t {
        0 => Plan::Store {
            at: image::field_index(Field::Intent, d, own),
            value: mask::with(image::read_field(image, Field::Intent, d, own), a),
            step: s,
            turn: 1,
        },
        1 => lock_turn(image, d, own, a, s),
        _ => {
            let owned = image::field_index(Field::Owned, d, own);
            let v = mask::with(image::read_field(image, Field::Owned, d, own), a);
            worklog::logged(image, d, own, s, t, owned, v, s + 1, 0, t - 2)
        }
    }
}

// What the release of a lock with this owner word reports: it is freed where it names the worker.
pub fn report(word: u64, d: usize) -> Report
    ensures { result ≡ report_of d word }
{
    match word {
        0 => Report::AlreadyFree,
        _ if word - 1 == d as u64 => Report::Freed,
        _ => Report::Others,
    }
}

// A release's turn 4, by the report.
fn unlock_turn(image: &[u64], d: usize, own: usize, a: u64, s: u8) -> Plan
    requires { (Inside own image.now d) × (a < 64) }
    ensures { result ≡ plan_of own (unlock_turn own (at own image.now) d a s) }
{
    match report(image::read_lock(image, a), d) {
        Report::Freed => Plan::Free {
            lock: a,
            step: s,
            turn: 5,
        },
        Report::AlreadyFree => Plan::Pass {
            why: Passing::AlreadyFree,
            step: s,
            turn: 5,
        },
        Report::Others => Plan::Pass {
            why: Passing::Others,
            step: s,
            turn: 5,
        },
    }
}

// A release's turns 0 to 3: the owned mask without the lock, in a logged store.
pub fn disown_turn(image: &[u64], d: usize, own: usize, a: u64, s: u8, t: u8) -> Plan
    requires { (Inside own image.now d) × (a < 64) × (s < 64) × (t < 4) }
    ensures { result ≡ plan_of own (release_turn own (at own image.now) d a s t) }
{
    let at = image::field_index(Field::Owned, d, own);
    let v = mask::without(image::read_field(image, Field::Owned, d, own), a);
    worklog::logged(image, d, own, s, t, at, v, s, 4, t)
}

// A release's turns 4 and 5: the lock's owner word, then the intent.
pub fn give_turn(image: &[u64], d: usize, own: usize, a: u64, s: u8, t: u8) -> Plan
    requires { (Inside own image.now d) × (a < 64) × (s < 64) × (4 ≤ t) × (t < 6) }
    ensures { result ≡ plan_of own (release_turn own (at own image.now) d a s t) }
{
    if t == 4 {
        return unlock_turn(image, d, own, a, s);
    }
    Plan::Store {
        at: image::field_index(Field::Intent, d, own),
        value: mask::without(image::read_field(image, Field::Intent, d, own), a),
        step: s + 1,
        turn: 0,
    }
}

// The expression is worked out in the turn that stores its value, and in no other.
pub fn assign_turn(image: &[u64], d: usize, own: usize, a: u64, e: Expr, s: u8, t: u8) -> Plan
    requires { (Inside own image.now d) × (a < 512 + own) × ranged own e × (s < 64) × (t < 6) }
    ensures { result ≡ plan_of own (op_turn own (at own image.now) d s t (Op.Assign a e)) }
{
    let target = words::operand_index(d, a, own);
    if t == 1 {
        let v = words::eval(image, d, e, own);
        return worklog::logged(image, d, own, s, t, target, v, s + 1, 0, t);
    }
    worklog::logged(image, d, own, s, t, target, 0, s + 1, 0, t)
}

pub fn jump_turn(image: &[u64], d: usize, own: usize, a: u64, b: u64, s: u8) -> Plan
    requires { (Inside own image.now d) × (a < 512 + own) × (b < 64) × (s < 64) }
    ensures { (t : ℕ) → result ≡ plan_of own (op_turn own (at own image.now) d s t (Op.Jump a b)) }
{
    let taken = words::word(image, d, a, own) == 0;
    Plan::Pass {
        why: Passing::Jump,
        step: if taken { b as u8 } else { s + 1 },
        turn: 0,
    }
}

pub fn finish_turn(image: &[u64], d: usize, own: usize, s: u8, t: u8) -> Plan
    requires { Inside own image.now d }
    ensures { result ≡ plan_of own (finish_turn own (at own image.now) d s t) }
{
    match t {
        0 => Plan::Store {
            at: image::field_index(Field::Finished, d, own),
            value: image::read_field(image, Field::Number, d, own),
            step: s,
            turn: 1,
        },
        1 => Plan::Store {
            at: image::field_index(Field::Pc, d, own),
            value: 0,
            step: s,
            turn: 2,
        },
        _ => Plan::Store {
            at: image::field_index(Field::Count, d, own),
            value: 0,
            step: 0,
            turn: 255,
        },
    }
}

// The turn of an instruction whose operands are in their ranges.
#[inline(always)]
pub fn op_turn(image: &[u64], d: usize, own: usize, s: u8, t: u8, x: Op) -> Plan
    requires { (Inside own image.now d) × fits own x × (s < 64) × (t < 6) }
    ensures { result ≡ plan_of own (op_turn own (at own image.now) d s t x) }
{
    match x {
        Op::Acquire(a) => acquire_turn(image, d, own, a, s, t),
        Op::Release(a) if t < 4 => disown_turn(image, d, own, a, s, t),
        Op::Release(a) => give_turn(image, d, own, a, s, t),
        Op::Assign(a, e) => assign_turn(image, d, own, a, e, s, t),
        Op::Jump(a, b) => jump_turn(image, d, own, a, b, s),
        Op::Finish => finish_turn(image, d, own, s, t),
        Op::Unknown => Plan::Wait(0),
    }
}
