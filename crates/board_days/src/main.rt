// Plays the days that the file `days` names, one to a line, and prints each one's name and what it prints. Where a day was not read and written whole
// the status says so at the end.
#![tactic(auto)]

ghost use Rattle.std.specs.Prelude.{◌≤◌, length};

use std::fs::File;
use std::io::{Error, ErrorKind, Read, Write};
use std::process::ExitCode;
use std::{io, str};
use stream::Reason;

// Opens a file.
fn open(rt: &HostRuntime, name: &[u8]) -> io::Result<File> {
    let name = str::from_utf8(name).map_err(|_| Error::from(ErrorKind::InvalidFilename))?;
    File::open(rt, name)
}

// Says on standard error that a file is not opened, and why.
fn fail(rt: &HostRuntime, name: &[u8], e: &Error) {
    let why = Reason(e);
    let _ = rt.stderr().write_all(name);
    let _ = writeln!(rt.stderr(), ": {why}");
}

// Plays the day of a name. False where it was opened, and then not read and written whole.
fn play(rt: &HostRuntime, name: &[u8]) -> bool {
    let mut output = rt.stdout();
    let _ = output.write_all(b"== ");
    let _ = output.write_all(name);
    let _ = output.write_all(b"\n");
    match open(rt, name) {
        Ok(mut day) => stream::play(&mut day, &mut output, &mut io::sink(), &mut rt.stderr()),
        Err(e) => {
            fail(rt, name, &e);
            true
        }
    }
}

// Plays the days of the names, one to a line, and answers whether all that were opened were read and written whole.
fn play_all(rt: &HostRuntime, names: &[u8]) -> bool {
    let mut whole = true;
    for line in names.split_inclusive(|b| *b == b'\n') {
        whole &= play(rt, &line[..buffers::line_end(line)]);
    }
    whole
}

// Reads until the buffer is full, the file ends or a read fails, and answers how many bytes came.
fn read_full(file: &mut File, buf: &mut [u8]) -> usize
    ensures { result ≤ length buf.new }
{
    // std's methods that fill a slice say of a short file no more than that it was short.
    let mut done: usize = 0;
    while done < buf.len() {
        match file.read(&mut buf[done..]) {
            Ok(0) => return done,
            Ok(n) => done += n,
            Err(_) => return done,
        }
    }
    done
}

fn main(rt: HostRuntime) -> ExitCode {
    let whole = match open(&rt, b"days") {
        Ok(mut days) => {
            let mut names = [0u8; 65536];
            let n = read_full(&mut days, &mut names);
            play_all(&rt, &names[..n])
        }
        Err(e) => {
            fail(&rt, b"days", &e);
            true
        }
    };
    if whole {
        ExitCode::SUCCESS
    } else {
        ExitCode::FAILURE
    }
}
