// The number and the value of each case of the answers here (specs/Codes), as they go to C: an answer has five cases and is no Result.
ghost use Rattle.std.specs.Prelude.{◌≡◌};
ghost use Rattle.turn.specs.Codes.{turn_code, passing_of, turn_detail};

use crate::Answer;
use working::Cause;
use worklog::Passing;

// Ours, from 32 up: the papers' causes are below.
const STORED: u64 = 32;

const PASSED: u64 = 33;

const WAITING: u64 = 34;

const IDLE: u64 = 35;

pub fn turn_code(a: Answer) -> u64
    ensures { result ≡ turn_code a }
{
    match a {
        Answer::Stored(_) => STORED,
        Answer::Passed(_) => PASSED,
        Answer::Waiting(_) => WAITING,
        Answer::Idle => IDLE,
        Answer::Refused(r) => r.cause(),
    }
}

// Why a turn passed: nothing is reported of a jump.
fn passing(why: Passing) -> u64
    ensures { result ≡ passing_of why }
{
    match why {
        Passing::Jump => 0,
        Passing::AlreadyFree => 1,
        Passing::Others => 2,
    }
}

pub fn turn_detail(a: Answer) -> u64
    ensures { result ≡ turn_detail a }
{
    match a {
        Answer::Stored(i) => i as u64,
        Answer::Passed(why) => passing(why),
        Answer::Waiting(b) => b,
        Answer::Idle => 0,
        Answer::Refused(r) => r.value(),
    }
}
