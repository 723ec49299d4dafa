// The program `board`: frame lines on standard input, what they print on standard output, and what is wrong on standard error.
#![tactic(auto)]

use std::env::{Env, FillError};
use std::io::Write;

fn main(rt: HostRuntime) {
    if let Err(FillError::NotPresent) = rt.arg(1, &mut [0u8; 1]) {
        stream::play(
            &mut rt.stdin(),
            &mut rt.stdout(),
            &mut rt.stderr(),
            &mut rt.stderr(),
        );
        return;
    }
    let _ = rt.stderr().write_all(
        b"board: takes no arguments; frame lines come on standard input\n",
    );
}
