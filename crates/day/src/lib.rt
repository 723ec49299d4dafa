// A day of frame lines, without input and output of its own: the complete lines of an input buffer are played on an image buffer, and
// what they print is put into an output buffer. Whoever calls it reads, writes and calls again.
#![tactic(auto)]

ghost use Rattle.std.specs.Prelude.{◌≡◌, length};
ghost use Rattle.stages.specs.Buffer.{Holds};
ghost use Rattle.pieces.specs.Pieces.{whole};
ghost use Rattle.pieces.specs.Pieced.{point_of};
ghost use Rattle.day.specs.Core.{Advanced};
ghost use Rattle.day.specs.Wants.{want_of};

use lines::Job;
use stages::Day;

// What the core has done: where the day stands, the bytes of input taken, and the bytes of output used.
#[derive(Clone, Copy)]
pub struct Stretch {
    pub day: Day,
    pub taken: usize,
    pub used: usize,
}

// What a day needs to go on.
#[derive(Clone, Copy)]
pub enum Want {
    // Room in the output.
    Room,
    // More input.
    Input,
    // Nothing: it is over, or its input is.
    Nothing,
}

// Goes on with a day until it is over, the input has no complete line, or the output has no room for a line. `more` says that more
// input may come.
pub fn advance(image: &mut [u64], d: Day, input: &[u8], more: bool, out: &mut [u8]) -> Stretch
    requires { Holds image.old d }
    ensures { Advanced image.old image.new input.now out.old out.new d result
        (whole more (length out.old) (point_of input.now image.old d)) }
{
    let mut s = Stretch {
        day: d,
        taken: 0,
        used: 0,
    };
    while 22 <= out.len() - s.used {
        let Some(p) = pieces::make(image, s.day, input, s.taken, more) else {
            return s;
        };
        let used = buffers::print(out, s.used, p.day.played.printed);
        let r = pieces::run_on(image, p.day, out, used);
        s = Stretch {
            day: r.day,
            taken: p.from,
            used: r.used,
        };
    }
    s
}

// What is to be done after the core has come to its end, with so much room left.
#[tactic(auto, unfolding(crate::specs::Wants::want_of))]
pub fn wants(d: Day, more: bool, room: usize) -> Want
    ensures { result ≡ want_of more room d.played.job }
{
    if room < 22 {
        Want::Room
    } else if more && !matches!(d.played.job, Job::Stop) {
        Want::Input
    } else {
        Want::Nothing
    }
}
