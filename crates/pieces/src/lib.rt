// Pieces of a day: the next line begun, or the line gone on with. A piece prints one line at most.
#![tactic(auto)]

ghost use Rattle.std.specs.Prelude.{◌≡◌, ◌≤◌, length, drop};
ghost use Rattle.lines.specs.declared.Job.TheVariants.{Next};
ghost use Rattle.stages.specs.Buffer.{Holds};
ghost use Rattle.pieces.specs.Pieces.{ready, ready_for, piece, piece_for};
ghost use Rattle.pieces.specs.Pieced.{point_of, Pieced, RunsOn};

use lines::Job;
use stages::Day;

// A piece of a day that was made: where the day then stands, and where its input goes on.
#[derive(Clone, Copy)]
pub struct Piece {
    pub day: Day,
    pub from: usize,
}

// A line gone on with: where the day then stands, and the bytes of output used.
#[derive(Clone, Copy)]
pub struct Run {
    pub day: Day,
    pub used: usize,
}

// The line gone on with while it is to be, and there is room for what it prints.
pub fn run_on(image: &mut [u64], d: Day, out: &mut [u8], used: usize) -> Run
    requires { (d.words ≤ length image.old) × (used ≤ length out.old) }
    ensures { RunsOn image.old image.new out.old out.new used d result }
{
    let n = d.words;
    let mut p = d.played;
    let mut to = used;
    while p.job.is_going() && 22 <= out.len() - to {
        p = lines::go_on(&mut image[..n], p);
        to = buffers::print(out, to, p.printed);
    }
    Run {
        day: Day {
            words: n,
            played: p,
        },
        used: to,
    }
}

// The next line, if it is complete.
fn next(image: &mut [u64], d: Day, input: &[u8], from: usize, more: bool) -> Option<Piece>
    requires { (from ≤ length input.now) × Holds image.old d }
    ensures { Pieced image.old image.new input.now d from result
        (ready_for more (drop from input.now) Next)
        (piece_for more (point_of (drop from input.now) image.old d) Next) }
{
    let left = &input[from..];
    let n = left.len();
    let end = buffers::line_end(left);
    if !buffers::complete(end, n, more) {
        return None;
    }
    Some(Piece {
        day: stages::line(image, d, &left[..end]),
        from: from + (end + 1).min(n),
    })
}

// Makes one piece, if there is one to be made.
pub fn make(image: &mut [u64], d: Day, input: &[u8], from: usize, more: bool) -> Option<Piece>
    requires { (from ≤ length input.now) × Holds image.old d }
    ensures { Pieced image.old image.new input.now d from result
        (ready more (point_of (drop from input.now) image.old d))
        (piece more (point_of (drop from input.now) image.old d)) }
{
    match d.played.job {
        Job::Turns { .. } | Job::Rounds { .. } | Job::Stores(_) => Some(Piece {
            day: stages::on(image, d),
            from,
        }),
        Job::Next => next(image, d, input, from, more),
        Job::Stop => None,
    }
}
