// The sums of a recorded day: the turns that waited, by lock and by worker, and those that did not, by worker. A whole day in memory is played line by
// line by what `board` plays it by, and nothing is printed.
#![tactic(auto)]

mod counting;
mod playing;

ghost use Rattle.std.specs.Prelude.{◌≡◌};
ghost use Rattle.sums.specs.Sums.{sums};
ghost use Rattle.sums.specs.Day.{day_reading, day_sums};

use playing::Stand;

// The sums in memory.
#[derive(Clone, Copy)]
pub struct Sums {
    pub locks: [u64; 64],
    pub waited: [u64; 8],
    pub moved: [u64; 8],
}

// How far a day was read: the cause that ended it early, or 0, as C gets it, and the lines read, the one that ended it included.
#[derive(Clone, Copy)]
pub struct Read {
    pub ends: u64,
    pub lines: u64,
}

// The sums of a day, for any bytes: where reading ends early, those up to there.
pub fn day_sums(
    bytes: &[u8],
    locks: &mut [u64; 64],
    waited: &mut [u64; 8],
    moved: &mut [u64; 8],
) -> Read
    ensures sums { sums locks.new waited.new moved.new ≡ day_sums bytes.now }
    ensures ends { result.ends ≡ (day_reading bytes.now).ends }
    ensures lines { result.lines ≡ (day_reading bytes.now).read }
{
    let mut sums = Sums {
        locks: [0; 64],
        waited: [0; 8],
        moved: [0; 8],
    };
    let mut image = [0u64; edition::LARGEST];
    let mut s = Stand::start();
    while s.goes_on(bytes.len()) {
        s = s.next(&mut image, bytes, &mut sums);
    }
    *locks = sums.locks;
    *waited = sums.waited;
    *moved = sums.moved;
    Read {
        ends: s.ends(),
        lines: s.lines,
    }
}
