// The input's buffer filled.
ghost use Rattle.std.specs.Prelude.{◌≡◌, ◌+◌, ◌-◌, ◌<◌, ◌≤◌, ◌++◌, true, false, length, take, drop};
ghost use Rattle.std.specs.Io.KnownBytes.{Consumes, IsAtEnd};
ghost use Rattle.stream.specs.Shell.{unread, Refilled};
ghost use Rattle.stream.specs.Carried.{Came};

use crate::failures::Failures;
use crate::{Stream, failures, telling};
use std::io::{Read, Write};

// Reads behind the first n bytes of the buffer, and answers how many came. A failure is told, and is the input's end.
fn read_on<R: Read, E: Write>(
    input: &mut R,
    failures: &mut Failures<E>,
    buf: &mut [u8],
    n: usize,
) -> usize
    requires { n ≤ length buf.old }
    ensures first { take n buf.new ≡ take n buf.old }
    ensures held { n + result ≤ length buf.new }
    ensures read { Consumes (R.remaining input.old) (R.remaining input.new) (take result (drop n buf.new)) }
    ensures ended { n < length buf.old → failures.new.any ≡ false → result ≡ 0 → IsAtEnd (R.remaining input.new) }
    ensures told { failures.old.any ≡ true → failures.new.any ≡ true }
{
    match input.read(&mut buf[n..]) {
        Ok(got) => got,
        Err(e) => {
            failures::tell(failures, "standard input", &e);
            0
        }
    }
}

// The next piece of input is read behind the bytes that are not taken yet.
pub fn more<R: Read, E: Write>(
    input: &mut R,
    failures: &mut Failures<E>,
    buf: &mut [u8],
    s: Stream,
) -> Stream
    requires { (s.from ≤ s.to) × (s.to ≤ length buf.old) }
    ensures refilled { Refilled buf.old buf.new s result }
    ensures read { Came (R.remaining input.old) (R.remaining input.new) (unread buf.old s) (unread buf.new result) }
    ensures ended { s.to - s.from < length buf.old → failures.new.any ≡ false → result.more ≡ false
        → IsAtEnd (R.remaining input.new) }
    ensures told { failures.old.any ≡ true → failures.new.any ≡ true }
{
    let n = s.to - s.from;
    let ended = telling::ends_in(buf, s.from);
    buf.copy_within(s.from..s.to, 0);
    let got = read_on(input, failures, buf, n);
    Stream {
        from: 0,
        to: n + got,
        lines: s.lines.wrapping_add(ended),
        more: got > 0,
        ..s
    }
}
