// One line played, piece by piece. No line is cut: each call is given all the stores there are.
ghost use Rattle.std.specs.Prelude.{◌≡◌, cond, ◌≤◌, length};
ghost use Rattle.image.specs.Image.{Image};
ghost use Rattle.edition.specs.Edition.{mark, own_words};
ghost use Rattle.recovery.specs.Recovery.{recovery};
ghost use Rattle.lines.specs.declared.Job.TheVariants.{Turns as TurnsLeft, Next};
ghost use Rattle.lines.specs.Play.{stage, submit_stage, recovered, print_job, goes_on, turns_made, turn_stage, slot_stage};

use crate::{Job, Made, Played, saying};
use turn::Answer;
use working::Cursors;

// 01: the section is submitted.
pub fn submit(image: &mut [u64], c: Cursors, line: &[u8], worker: usize, number: u64) -> Played
    requires { (148 ≤ length line.now) × (length line.now ≤ 4096) }
    ensures { stage image.new result ≡ submit_stage image.old c line.now worker number }
{
    let mut space = [0u64; 246];
    let n = frames::words(frames::steps_part(line), &mut space);
    let args = frames::arguments(line);
    let mut left = u64::MAX;
    let e = edition::submit(image, c, worker, number, &args, &space[..n], &mut left);
    Played::new(e.cursors, saying::answered(e.answer), Job::Next)
}

// 03: the image is recovered, and its stores are printed by `store`.
pub fn recover(image: &mut [u64]) -> Played
    ensures { stage image.new result ≡ recovered image.old (recovery mark own_words image.old) }
{
    let mut left = u64::MAX;
    let r = edition::recover(image, &mut left);
    Played {
        repair: r.repair,
        ..Played::new(r.cursors, saying::answered(r.answer), print_job(r.answer))
    }
}

fn print_job(a: Result<(), soundness::Refusal>) -> Job
    ensures { result ≡ print_job a }
{
    match a {
        Ok(_) => Job::Stores(0),
        Err(_) => Job::Next,
    }
}

// What is left after a turn with this answer, so many being left before it ended.
fn turns_job(a: Answer, worker: usize, turns: u64) -> Job
    ensures { result ≡ cond (goes_on a) (TurnsLeft worker turns) Next }
{
    match a {
        Answer::Stored(_) | Answer::Passed(_) => Job::Turns { worker, turns },
        Answer::Waiting(_) | Answer::Idle | Answer::Refused(_) => Job::Next,
    }
}

// The turns that are made by one with this answer, the first of so many: all of them where they would answer the same.
fn turns_made(a: Answer, worker: usize, turns: u64) -> Made
    ensures { result ≡ turns_made a worker turns }
{
    let times = match a {
        Answer::Stored(_) | Answer::Passed(_) => 1,
        Answer::Waiting(_) | Answer::Idle => turns,
        Answer::Refused(_) => 0,
    };
    Made {
        worker,
        answer: a,
        times,
    }
}

// The first of so many turns.
pub fn turn(image: &mut [u64], p: Played, worker: usize, turns: u64) -> Played
    ensures { stage image.new result ≡ turn_stage image.old p worker turns }
{
    if turns == 0 {
        return p.over(Job::Next);
    }
    let mut left = u64::MAX;
    let t = edition::line_turn(image, p.cursors, worker, &mut left);
    Played {
        cursors: t.cursors,
        printed: saying::turned(image, t.answer),
        job: turns_job(t.answer, worker, turns - 1),
        made: turns_made(t.answer, worker, turns),
        ..p
    }
}

// The store of one slot of the repair, printed.
#[tactic(auto, unfolding(crate::specs::Play::slot_stage))]
pub fn store(p: Played, slot: usize) -> Played
    ensures { (m : Image) → stage m result ≡ slot_stage m p slot }
{
    if repair::SLOTS <= slot {
        return p.over(Job::Next);
    }
    Played {
        printed: saying::slot(edition::slot_at(p.repair, slot)),
        ..p.over(Job::Stores(slot + 1))
    }
}
