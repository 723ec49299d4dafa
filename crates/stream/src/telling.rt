// What is said of a day that stops before its input ends.
ghost use Rattle.std.specs.Prelude.{◌≡◌, ◌≤◌, length, take};
ghost use Rattle.stream.specs.Lines.{ends_in, line_at};

use frames::Line;
use lines::{Job, Played};
use std::io::Write;

// The lines that end among the first n bytes.
pub fn ends_in(buf: &[u8], n: usize) -> u64
    requires { n ≤ length buf.now }
    ensures { result ≡ ends_in (take n buf.now) }
{
    buf[..n].iter().filter(|b| **b == b'\n').count() as u64
}

// The number of the line that ends with the n-th byte, or has it, where so many lines ended before the first.
pub fn line_at(buf: &[u8], n: usize, before: u64) -> u64
    requires { n ≤ length buf.now }
    ensures { result ≡ line_at buf.now n before }
{
    if n == 0 {
        return before;
    }
    before.wrapping_add(ends_in(buf, n - 1)).wrapping_add(1)
}

// Why a line stopped the day, by what it printed.
fn why(printed: Option<Line>) -> &'static str {
    match printed {
        None => "",
        Some(l) if l.value == frames::MALFORMED => ": malformed (14)",
        Some(_) => ": no board has so many desks (10)",
    }
}

// Says which line stopped the day, if one did.
pub fn tell<M: Write>(messages: &mut M, line: u64, p: Played) {
    if matches!(p.job, Job::Stop) {
        let why = why(p.printed);
        let _ = writeln!(
            messages,
            "board: line {line}{why}; nothing behind it is played"
        );
    }
}
