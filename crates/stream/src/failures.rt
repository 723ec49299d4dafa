// Reads and writes that fail: each is told where it happens, and that there was one is kept.
ghost use Rattle.std.specs.Prelude.{◌≡◌, true};

use std::io::Write;
use std::{fmt, io, str};

// Where failures are told, and whether there was one.
#[derive(Drop)]
pub struct Failures<E> {
    pub to: E,
    pub any: bool,
}

// Why something failed: the system's words, without its number.
#[derive(Clone, Copy)]
pub struct Reason<'a>(pub &'a io::Error);

impl fmt::Display for Reason<'_> {
    fn fmt<W: fmt::Write>(&self, f: &mut fmt::Formatter<W>) -> fmt::Result {
        let e = self.0;
        let mut text = [0u8; 128];
        let mut left = &mut text[..];
        let _ = write!(left, "{e}");
        let n = 128usize.saturating_sub(left.len());
        let said = str::from_utf8(&text[..n]).unwrap_or("");
        f.write_str(
            said.split_once(" (os error ")
                .map_or(said, |(words, _)| words),
        )
    }
}

// Tells that a stream failed, and why.
pub fn tell<E: Write>(failures: &mut Failures<E>, stream: &str, e: &io::Error)
    ensures { failures.new.any ≡ true }
{
    let why = Reason(e);
    let _ = writeln!(failures.to, "board: {stream}: {why}");
    failures.any = true;
}
