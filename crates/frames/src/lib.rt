// Frame lines: what a line of any bytes says, and how a line is printed.
#![tactic(auto)]

mod digits;
mod reading;
mod saying;

ghost use Rattle.std.specs.Prelude.{◌≡◌, ◌≤◌, ◌/◌, ◌++◌, length, drop};
ghost use Rattle.frames.specs.Line.{first_of, frame_of, steps_part, arguments_of, words_of};
ghost use Rattle.frames.specs.Print.{refusal, report, text_of};

// The number of a malformed line.
pub const MALFORMED: u64 = 14;

// What a later line says. (Document 01: 01, 02, 03, or malformed; document 02, 7/14: 04.) The arguments and the steps' part of a submit stay in
// the line.
#[derive(Clone, Copy)]
pub enum Frame {
    Submit { worker: usize, number: u64 },
    Turns { worker: usize, turns: u64 },
    Recover,
    Rounds(u64),
    Malformed,
}

// A line to be printed: an index, or ffff or fffe, and a value.
#[derive(Clone, Copy)]
pub struct Line {
    pub at: usize,
    pub value: u64,
}

// The first line: the number of workers in two digits; None where it is malformed.
pub fn first(line: &[u8]) -> Option<u64>
    ensures { result ≡ first_of line.now }
{
    reading::first(line)
}

// A later line.
pub fn read(line: &[u8]) -> Frame
    ensures { result ≡ frame_of line.now }
{
    reading::read(line)
}

// The digits after the arguments, as a part of the caller's line; none where the line is shorter.
pub fn steps_part(line: &[u8]) -> &[u8]
    ensures { result.now ≡ steps_part line.now }
{
    reading::steps_part(line)
}

// The arguments of a submit.
pub fn arguments(line: &[u8]) -> [u64; 8]
    requires { 148 ≤ length line.now }
    ensures { result ≡ arguments_of line.now }
{
    reading::arguments(line)
}

// Puts the words of a steps' part at the start of a lent slice, and answers how many they are. What is behind them stays.
pub fn words(part: &[u8], out: &mut [u64]) -> usize
    requires { length part.now / 16 ≤ length out.old }
    ensures count { result ≡ length part.now / 16 }
    ensures words { out.new ≡ words_of part.now ++ drop (length part.now / 16) out.old }
{
    reading::words(part, out)
}

// A refusal with a cause, as it is printed.
pub fn refusal(cause: u64) -> Option<Line>
    ensures { result ≡ refusal cause }
{
    saying::refusal(cause)
}

// What a release found, as it is printed.
pub fn report(found: u64) -> Option<Line>
    ensures { result ≡ report found }
{
    saying::report(found)
}

// The printed form of an index and a value, with the byte 10 that ends it.
pub fn text(at: usize, value: u64) -> [u8; 22]
    ensures { result ≡ text_of at value }
{
    saying::text(at, value)
}
