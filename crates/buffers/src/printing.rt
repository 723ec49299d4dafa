// The output's buffer.
ghost use Rattle.std.specs.Prelude.{◌≡◌, ◌+◌, ◌≤◌, length};
ghost use Rattle.buffers.specs.Output.{bytes_of, Puts};

use frames::Line;

// Puts what a piece printed behind the bytes used, and answers how many are used then.
// The buffer comes whole, with the bytes used beside it: what a day promises (`Puts`, `RunsOn`) tells of all of it.
pub fn print(out: &mut [u8], used: usize, p: Option<Line>) -> usize
    requires { used + 22 ≤ length out.old }
    ensures { Puts out.old out.new used result (bytes_of p) }
{
    match p {
        None => used,
        Some(l) => {
            let to = used + 22;
            out[used..to].copy_from_slice(&frames::text(l.at, l.value));
            to
        }
    }
}
