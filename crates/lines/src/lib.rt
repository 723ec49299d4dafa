// One line played on an image and cursors, with what is to be printed. A line is begun, and then gone on with, a turn or a printed
// store at a time, so that nothing here needs a large buffer.
#![tactic(auto)]

use frames::{Frame, Line};
use repair::Repair;
use turn::Answer;
use working::Cursors;

mod playing;
mod rounds;
mod saying;

ghost use Rattle.std.specs.Prelude.{◌≡◌, None};
ghost use Rattle.repair.specs.Repair.{no_repair};
ghost use Rattle.frames.specs.Print.{malformed, refusal};
ghost use Rattle.lines.specs.Play.{stage, played, no_turn, is_going, begin, go_on};

// So many turns of a worker, all with the same answer; none where it is 0.
#[derive(Clone, Copy)]
pub struct Made {
    pub worker: usize,
    pub answer: Answer,
    pub times: u64,
}

impl Made {
    // No turn made.
    pub fn none() -> Made
        ensures { result ≡ no_turn }
    {
        Made {
            worker: 0,
            answer: Answer::Idle,
            times: 0,
        }
    }
}

// What is left to do of a line.
#[derive(Clone, Copy)]
pub enum Job {
    // So many turns of a worker.
    Turns { worker: usize, turns: u64 },
    // So many rounds, the first of them from this worker on.
    Rounds { worker: usize, rounds: u64 },
    // The stores of a recovery are to be printed, from this slot on.
    Stores(usize),
    // Nothing: the next line.
    Next,
    // Nothing, and no line follows.
    Stop,
}

impl Job {
    // Whether a line is to be gone on with.
    pub fn is_going(self) -> bool
        ensures { result ≡ is_going self }
    {
        !matches!(self, Job::Next | Job::Stop)
    }
}

// Where the playing of a line stands.
#[derive(Clone, Copy)]
pub struct Played {
    pub cursors: Cursors,
    pub printed: Option<Line>,
    pub job: Job,
    // What the recovery of this line stored; of another line nothing.
    pub repair: Repair,
    // The turns that were made, counted at once where the rest of a line's would be the same.
    pub made: Made,
}

impl Played {
    // With this printed and this left to do; nothing is recovered, and no turn is made.
    pub fn new(cursors: Cursors, printed: Option<Line>, job: Job) -> Played
        ensures { result ≡ played cursors printed job no_repair no_turn }
    {
        Played {
            cursors,
            printed,
            job,
            repair: repair::no_repair(),
            made: Made::none(),
        }
    }

    // Nothing is printed, and this is left to do.
    fn over(self, job: Job) -> Played
        ensures { result ≡ played self.cursors None job self.repair no_turn }
    {
        Played {
            printed: None,
            job,
            made: Made::none(),
            ..self
        }
    }
}

// Begins a line: a submit and a recovery are made here, and the turns of a worker or of rounds are left to `go_on`.
pub fn begin(image: &mut [u64], c: Cursors, line: &[u8]) -> Played
    ensures { stage image.new result ≡ begin image.old c line.now }
{
    match frames::read(line) {
        Frame::Submit { worker, number } => playing::submit(image, c, line, worker, number),
        Frame::Turns { worker, turns } => Played::new(c, None, Job::Turns { worker, turns }),
        Frame::Recover => playing::recover(image),
        Frame::Rounds(rounds) => Played::new(c, None, Job::Rounds { worker: 0, rounds }),
        Frame::Malformed => Played::new(c, frames::refusal(frames::MALFORMED), Job::Stop),
    }
}

// Goes on with a line: one turn, or one store of a recovery printed.
pub fn go_on(image: &mut [u64], p: Played) -> Played
    ensures { stage image.new result ≡ go_on (stage image.old p) }
{
    match p.job {
        Job::Turns { worker, turns } => playing::turn(image, p, worker, turns),
        Job::Rounds { worker, rounds } => rounds::turn(image, p, worker, rounds),
        Job::Stores(slot) => playing::store(p, slot),
        Job::Next | Job::Stop => p.over(p.job),
    }
}
