// The number and the value of each case of the answers here (specs/Codes), as they go to C: a run has three ends and they are no Result.
ghost use Rattle.std.specs.Prelude.{◌≡◌};
ghost use Rattle.run.specs.Codes.{end_code, end_detail};

use crate::End;
use working::Cause;

// Ours, behind those of a turn's answers.
const SPENT: u64 = 36;

pub fn end_code(e: End) -> u64
    ensures { result ≡ end_code e }
{
    match e {
        End::AllIdle => 0,
        End::Spent => SPENT,
        End::Halted(r) => r.cause(),
    }
}

pub fn end_detail(e: End) -> u64
    ensures { result ≡ end_detail e }
{
    match e {
        End::AllIdle | End::Spent => 0,
        End::Halted(r) => r.value(),
    }
}
