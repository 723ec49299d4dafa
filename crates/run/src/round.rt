// The turns of a round, one by one: for the loop of a run (`lap`), and made and printed by themselves (`only`, `next`), by one function.
ghost use Rattle.std.specs.Prelude.{◌≡◌, true, false, ◌≢◌, ◌-◌, ◌<◌, ◌≤◌};
ghost use Rattle.image.specs.Image.{at};
ghost use Rattle.image.specs.Inner.Inside.{Inside};
ghost use Rattle.plan.specs.Turn.{ready};
ghost use Rattle.working.specs.World.{world};
ghost use Rattle.working.specs.Cursor.{is_idle, cursor_at};
ghost use Rattle.turn.specs.Call.{answer_of, leaves, outcome_at, outcome};
ghost use Rattle.run.specs.Round.{next_open, next_worker, next_outcome};
ghost use Rattle.run.specs.Inner.Lap.{Lapped};

use image::Edition;
use turn::{Acted, Answer, Turned};
use working::{Cursors, Refusal};

// The next turn of a round: whose it is, its answer, and the record behind it.
#[derive(Clone, Copy)]
pub struct NextTurn {
    pub worker: usize,
    pub answer: Answer,
    pub cursors: Cursors,
}

// Whether a worker is ready in a round: after the first round, a turn past the first of its step is known to be.
fn ready_in(image: &[u64], d: usize, own: usize, s: u8, t: u8, round: u16) -> bool
    requires { (Inside own image.now d) × (t ≢ 0 → round ≢ 0 → ready own (at own image.now) d s t ≡ true) }
    ensures { result ≡ ready own (at own image.now) d s t }
{
    t != 0 && round != 0 || plan::ready(image, d, own, s, t)
}

// One turn of a round: that of worker d, which is open at step s, turn t; none where it is not ready. It is put into its callers, with the turn in it.
#[inline(always)]
pub fn lap(
    image: &mut [u64],
    d: usize,
    s: u8,
    t: u8,
    own: usize,
    round: u16,
    left: &mut u64,
) -> Option<Acted>
    requires { (Inside own image.old d) × (t ≢ 0 → round ≢ 0 → ready own (at own image.old) d s t ≡ true) }
    ensures { Lapped own image.old left.old image.new left.new d s t result }
{
    if !ready_in(image, d, own, s, t, round) {
        return None;
    }
    Some(turn::turn_in_place(image, d, s, t, own, left))
}

// The first open worker from d on, of n; n where there is none, or d where that is past n.
pub(crate) fn next_open(c: Cursors, d: usize, n: usize) -> usize
    requires { n ≤ 8 }
    ensures { result ≡ next_open (n - d) d c }
{
    for k in d..n {
        if !c.idle(k) {
            return k;
        }
    }
    d.max(n)
}

// A turn that is not made: the record is as it was.
fn told(answer: Answer, c: Cursors) -> Turned
    ensures { result ≡ record { answer = answer; cursors = c } }
{
    Turned { answer, cursors: c }
}

// The turn of worker d, which is open, by itself.
fn open_turn(image: &mut [u64], c: Cursors, d: usize, own: usize, left: &mut u64) -> Turned
    requires { (Inside own image.old d) × (is_idle (cursor_at c d) ≡ false) }
    ensures answer { result.answer ≡ answer_of own (outcome_at own (world image.old c left.old) d) }
    ensures after { world image.new result.cursors left.new
        ≡ leaves own (world image.old c left.old) d (outcome_at own (world image.old c left.old) d) }
{
    let Some(acted) = lap(image, d, c.step[d], c.turn[d], own, 0, left) else {
        return told(Answer::Refused(Refusal::Cursor(d)), c);
    };
    turn::told(c, d, acted)
}

// The turn of worker d by itself, as a line of turns makes it: what a turn call makes (`turn::turn`), by the functions of a round.
// (Two, since a turn call whose function has a second caller takes half as long again: docs/DECISIONS.md.)
pub fn only(image: &mut [u64], c: Cursors, d: usize, e: Edition, left: &mut u64) -> Turned
    ensures answer { result.answer ≡ answer_of e.own (outcome e.mark e.own (world image.old c left.old) d) }
    ensures after { world image.new result.cursors left.new
        ≡ leaves e.own (world image.old c left.old) d (outcome e.mark e.own (world image.old c left.old) d) }
{
    if !image::header_ok(image, e) {
        return told(Answer::Refused(Refusal::Image), c);
    }
    if image::workers(image) <= d as u64 {
        return told(Answer::Refused(Refusal::Worker), c);
    }
    if c.idle(d) {
        return told(Answer::Idle, c);
    }
    open_turn(image, c, d, e.own, left)
}

// The next turn of a round by itself, from worker d on: that of the first open worker; it answers idle where there is none. The header is tested.
pub fn next(image: &mut [u64], c: Cursors, d: usize, e: Edition, left: &mut u64) -> NextTurn
    ensures worker { result.worker ≡ next_worker e.mark e.own (world image.old c left.old) d }
    ensures answer { result.answer ≡ answer_of e.own (next_outcome e.mark e.own (world image.old c left.old) d) }
    ensures after { world image.new result.cursors left.new
        ≡ leaves e.own (world image.old c left.old) result.worker
        (next_outcome e.mark e.own (world image.old c left.old) d) }
{
    if !image::header_ok(image, e) {
        return NextTurn {
            worker: d,
            answer: Answer::Refused(Refusal::Image),
            cursors: c,
        };
    }
    let n = image::workers(image) as usize;
    let k = next_open(c, d, n);
    if n <= k {
        return NextTurn {
            worker: k,
            answer: Answer::Idle,
            cursors: c,
        };
    }
    let t = open_turn(image, c, k, e.own, left);
    NextTurn {
        worker: k,
        answer: t.answer,
        cursors: t.cursors,
    }
}
