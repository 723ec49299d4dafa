// Sets of locks as u64 masks: bit b stands for lock b.
#![tactic(auto)]

ghost use Rattle.std.specs.Prelude.{◌≡◌, ◌<◌};
ghost use Rattle.std.specs.Int.Count.{ones};
ghost use Rattle.mask.specs.Mask.{has, with, without, above};

// Whether lock b is in the set.
#[tactic(auto, unfolding(crate::specs::Mask::has))]
pub fn has(m: u64, b: u64) -> bool
    requires { b < 64 }
    ensures { result ≡ has m b }
{
    (m >> b) % 2 == 1
}

// The set with lock b.
pub fn with(m: u64, b: u64) -> u64
    requires { b < 64 }
    ensures { result ≡ with m b }
{
    m | (1 << b)
}

// The set without lock b.
pub fn without(m: u64, b: u64) -> u64
    requires { b < 64 }
    ensures { result ≡ without m b }
{
    m & !(1 << b)
}

// How many locks are in the set.
pub fn count(m: u64) -> u32
    ensures { result ≡ ones m }
{
    m.count_ones()
}

// Whether lock a is above all that are in the set: above the highest, which the leading zeros give.
pub fn above(m: u64, a: u64) -> bool
    ensures { result ≡ above m a }
{
    64 - m.leading_zeros() as u64 <= a
}
