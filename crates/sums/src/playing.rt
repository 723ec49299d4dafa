// A day played line by line, each to its end, and its turns counted.
ghost use Rattle.std.specs.Prelude.{◌≡◌, ◌<◌, ◌&&◌, length, take, ◌==◌, nat_lt};
ghost use Rattle.stages.specs.Buffer.{Holds};
ghost use Rattle.stages.specs.Lines.{whole_line};
ghost use Rattle.stages.specs.Begun.{fresh};
ghost use Rattle.pieces.specs.Pieces.{ends_of};
ghost use Rattle.sums.specs.Inner.Playing.{Stands, LinePlayed};

use crate::Sums;
use lines::Job;
use stages::Day;

// Where the reading of a day stands: the day, the bytes taken, and the lines read.
#[derive(Clone, Copy)]
pub struct Stand {
    pub day: Day,
    pub from: usize,
    pub lines: u64,
}

// A line played to its end, its turns counted. No turn is made where it is begun. (It goes on while the line does: no index is counted.)
fn line(image: &mut [u64], d: Day, text: &[u8], sums: &mut Sums) -> Day
    requires { Holds image.old d }
    ensures { LinePlayed image.old image.new d result sums.old sums.new
        (whole_line (take d.words image.old) d.played.cursors text.now) }
{
    let mut s = stages::line(image, d, text);
    while s.played.job.is_going() {
        s = stages::on(image, s);
        sums.count(s.played.made);
    }
    s
}

impl Stand {
    // Before the first line.
    pub fn start() -> Stand
        ensures { result ≡ record { day = record { words = 0; played = fresh }; from = 0; lines = 0 } }
    {
        Stand {
            day: stages::dawn(),
            from: 0,
            lines: 0,
        }
    }

    // The cause for which a line has ended the day, or 0.
    pub fn ends(self) -> u64
        ensures { result ≡ ends_of self.day.played }
    {
        match (self.day.played.job, self.day.played.printed) {
            (Job::Stop, Some(l)) => l.value,
            _ => 0,
        }
    }

    // Whether a line follows, of n bytes in all.
    pub fn goes_on(self, n: usize) -> bool
        ensures { result ≡ (ends_of self.day.played == 0 && nat_lt self.from n) }
    {
        self.ends() == 0 && self.from < n
    }

    // The next line.
    pub fn next(self, image: &mut [u64], bytes: &[u8], sums: &mut Sums) -> Stand
        requires { (ends_of self.day.played ≡ 0) × (self.from < length bytes.now)
            × Stands bytes.now image.old self sums.old }
        ensures further { self.from < result.from }
        ensures stands { Stands bytes.now image.new result sums.new }
    {
        let left = &bytes[self.from..];
        let n = left.len();
        let end = buffers::line_end(left);
        Stand {
            day: line(image, self.day, &left[..end], sums),
            from: self.from + (end + 1).min(n),
            lines: self.lines + 1,
        }
    }
}
