// The output's buffer written.
ghost use Rattle.std.specs.Prelude.{◌≡◌, ◌≤◌, true, if◌then◌else◌, length, take, nat_lt};
ghost use Rattle.std.specs.Io.KnownBytes.{Appends};
ghost use Rattle.stream.specs.Carried.{Written};

use crate::failures;
use crate::failures::Failures;
use std::io::{Error, ErrorKind, Write};

// Writes bytes until a write fails or takes none, and answers how many are written. A failure is told.
// By hand: of a failure `write_all` does not say that what is written are the first of the bytes, and after an interrupt it tries again.
fn write_on<W: Write, E: Write>(output: &mut W, failures: &mut Failures<E>, bytes: &[u8]) -> usize
    ensures bound { result ≤ length bytes.now }
    ensures written { Appends (W.contents output.old) (W.contents output.new) (take result bytes.now) }
    ensures failed { failures.new.any ≡ (if nat_lt result (length bytes.now) then true else failures.old.any) }
{
    let mut done: usize = 0;
    while done < bytes.len() {
        match output.write(&bytes[done..]) {
            Ok(0) => {
                failures::tell(
                    failures,
                    "standard output",
                    &Error::from(ErrorKind::WriteZero),
                );
                return done;
            }
            Ok(n) => done += n,
            Err(e) => {
                failures::tell(failures, "standard output", &e);
                return done;
            }
        }
    }
    done
}

// Writes the first bytes of the buffer, and answers whether that went well. A failure is told.
pub fn flush<W: Write, E: Write>(
    output: &mut W,
    failures: &mut Failures<E>,
    out: &[u8],
    used: usize,
) -> bool
    requires { used ≤ length out.now }
    ensures written { Written (W.contents output.old) (W.contents output.new) (take used out.now) result }
    ensures told { failures.new.any ≡ (if result then failures.old.any else true) }
{
    write_on(output, failures, &out[..used]) == used
}
