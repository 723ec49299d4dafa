// 04: rounds over the workers, turn by turn, each as a run makes it.
ghost use Rattle.std.specs.Prelude.{◌≡◌, true, ◌≤◌, ◌<◌};
ghost use Rattle.lines.specs.Play.{stage, makes, round_job, round_made, round_stage};

use crate::{Job, Made, Played, saying};
use turn::Answer;

// What is left after a turn of a round with this answer, from a worker on: the workers above it, in the same round; where no worker was open, the
// next round, or nothing where it was the first worker.
fn job(a: Answer, from: usize, d: usize, rounds: u64) -> Job
    requires { (1 ≤ rounds) × (makes a ≡ true → d < 8) }
    ensures { result ≡ round_job a from d rounds }
{
    match a {
        Answer::Stored(_) | Answer::Passed(_) | Answer::Waiting(_) => Job::Rounds {
            worker: d + 1,
            rounds,
        },
        Answer::Idle if from != 0 => Job::Rounds {
            worker: 0,
            rounds: rounds - 1,
        },
        Answer::Idle | Answer::Refused(_) => Job::Next,
    }
}

// The turn that is made by worker d with this answer.
fn made(a: Answer, d: usize) -> Made
    ensures { result ≡ round_made a d }
{
    let times = match a {
        Answer::Stored(_) | Answer::Passed(_) | Answer::Waiting(_) => 1,
        Answer::Idle | Answer::Refused(_) => 0,
    };
    Made {
        worker: d,
        answer: a,
        times,
    }
}

// The next turn of so many rounds, from a worker on.
pub fn turn(image: &mut [u64], p: Played, from: usize, rounds: u64) -> Played
    ensures { stage image.new result ≡ round_stage image.old p from rounds }
{
    if rounds == 0 {
        return p.over(Job::Next);
    }
    let mut left = u64::MAX;
    let t = edition::round_turn(image, p.cursors, from, &mut left);
    Played {
        cursors: t.cursors,
        printed: saying::turned(image, t.answer),
        job: job(t.answer, from, t.worker, rounds),
        made: made(t.answer, t.worker),
        ..p
    }
}
