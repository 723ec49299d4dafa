// A day of frame lines from a reader, and what it prints to a writer. All that is done here is reading into a buffer, handing it to the
// core (`day::advance`), writing what that put out, and moving what it left down; what is played and printed is the core's. Where a line stops the
// day, a message says which, and where a read or a write fails, one says why.
#![tactic(auto)]

use day::Want;
use stages::Day;
use std::io::{Read, Write};

mod failures;
mod input;
mod output;
mod telling;

ghost use Rattle.std.specs.Prelude.{◌≡◌, ℕ, ◌-◌, ◌<◌, ◌≤◌, ◌||◌, not, true, false, List, length, IfSome, IsTrue};
ghost use Rattle.std.specs.Io.KnownBytes.{Appends, Consumes, IsAtEnd};
ghost use Rattle.pieces.specs.Pieces.{whole};
ghost use Rattle.pieces.specs.Pieced.{point_of};
ghost use Rattle.stream.specs.InBuffers.{InBuffers};
ghost use Rattle.day.specs.declared.Want.TheVariants.{Nothing};
ghost use Rattle.day.specs.Wants.{want_of};
ghost use Rattle.day.specs.Printout.{printout};
ghost use Rattle.stream.specs.Shell.{unread, closed, Stepped};
ghost use Rattle.stream.specs.Carried.{Came, Written};

use failures::Failures;
pub use failures::Reason;

// Where a stream stands.
#[derive(Clone, Copy)]
struct Stream {
    pub day: Day,
    // The bytes of the input's buffer that are not taken yet. The bounds change by value with the rest here; the bytes are lent beside.
    pub from: usize,
    pub to: usize,
    // The lines that ended before the input's buffer, for a message.
    pub lines: u64,
    // Whether more input may come.
    pub more: bool,
    // Whether nothing is left to do.
    pub over: bool,
}

// The core, its output written, and more input read where it asks for that.
fn step<R: Read, W: Write, M: Write, E: Write>(
    input: &mut R,
    output: &mut W,
    messages: &mut M,
    failures: &mut Failures<E>,
    image: &mut [u64],
    buf: &mut [u8],
    out: &mut [u8],
    s: Stream,
) -> Stream
    requires { InBuffers image.old buf.old s }
    ensures within { InBuffers image.new buf.new result }
    ensures stepped { Stepped image.old image.new buf.old buf.new out.old out.new s result
        (whole s.more (length out.old) (point_of (unread buf.old s) image.old s.day)) }
    ensures read { Came (R.remaining input.old) (R.remaining input.new)
        (whole s.more (length out.old) (point_of (unread buf.old s) image.old s.day)).point.input (unread buf.new result) }
    ensures ended { 4096 < length buf.old → failures.new.any ≡ false → s.more ≡ true → result.more ≡ false
        → IsAtEnd (R.remaining input.new) }
    ensures written { Written (W.contents output.old) (W.contents output.new)
        (whole s.more (length out.old) (point_of (unread buf.old s) image.old s.day)).out
        (not result.over || not failures.new.any) }
    ensures over { failures.new.any ≡ false → result.over ≡ true
        → want_of s.more (length out.old - length (whole s.more (length out.old) (point_of (unread buf.old s) image.old s.day)).out)
        result.day.played.job ≡ Nothing }
    ensures told { failures.old.any ≡ true → failures.new.any ≡ true }
{
    let r = day::advance(image, s.day, &buf[s.from..s.to], s.more, out);
    let written = output::flush(output, failures, out, r.used);
    let next = Stream {
        day: r.day,
        from: s.from + r.taken,
        over: !written,
        ..s
    };
    match day::wants(r.day, s.more, out.len() - r.used) {
        Want::Room => next,
        Want::Input => input::more(input, failures, buf, next),
        Want::Nothing => ended(messages, buf, next),
    }
}

// The end, and what is to be said of it.
fn ended<M: Write>(messages: &mut M, buf: &[u8], s: Stream) -> Stream
    requires { s.from ≤ length buf.now }
    ensures { result ≡ closed s }
{
    telling::tell(
        messages,
        telling::line_at(buf, s.from, s.lines),
        s.day.played,
    );
    Stream { over: true, ..s }
}

// Plays the day that comes from a reader, prints to a writer, and answers whether all was read and written. What stopped the day early is said on
// a third stream, and what failed on a fourth. Where it is known which bytes the reader has and the writer is given: those printed are the first of
// what the bytes read print, all of them if nothing failed, and then all that the reader's bytes print.
pub fn play<R: Read, W: Write, M: Write, E: Write>(
    input: &mut R,
    output: &mut W,
    messages: &mut M,
    errors: &mut E,
) -> bool
    ensures printed { IsTrue result → IfSome (R.remaining input.old) (λ bytes.
        Appends (W.contents output.old) (W.contents output.new) (printout bytes)) }
    ensures first { (bytes : List ℕ) × Consumes (R.remaining input.old) (R.remaining input.new) bytes
        × Written (W.contents output.old) (W.contents output.new) (printout bytes) result }
{
    let mut image = [0u64; edition::LARGEST];
    let mut buf = [0u8; 65536];
    let mut out = [0u8; 65536];
    let mut failures = Failures {
        to: errors,
        any: false,
    };
    let mut s = Stream {
        day: stages::dawn(),
        from: 0,
        to: 0,
        lines: 0,
        more: true,
        over: false,
    };
    for _ in 0..u64::MAX {
        if s.over {
            break;
        }
        s = step(
            input,
            output,
            messages,
            &mut failures,
            &mut image,
            &mut buf,
            &mut out,
            s,
        );
    }
    s.over && !failures.any
}
