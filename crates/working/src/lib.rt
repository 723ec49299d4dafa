// What the calls have in common: the working record, which says where the workers stand, and why a call is refused.
#![tactic(auto)]

ghost use Rattle.std.specs.Prelude.{◌≡◌, ℕ, set};
ghost use Rattle.section.specs.Check.{fault_cause, fault_step};
ghost use Rattle.working.specs.declared.Refusal.TheVariants.{Section};
ghost use Rattle.working.specs.Cursor.{is_idle, cursor_at, cursors, set_at, all_idle, locks_held};
ghost use Rattle.working.specs.Refusal.{cause_of as refusal_cause, value_of as refusal_value, code_of, detail_of};

use section::Fault;

// Where the workers stand: a step and a turn for each. Turn 255 is idle. And the locks held, as a mask.
#[derive(Clone, Copy)]
pub struct Cursors {
    pub step: [u8; 8],
    pub turn: [u8; 8],
    pub held: u64,
}

// Why a call is refused.
#[derive(Clone, Copy)]
pub enum Refusal {
    // The worker is not one of the image's.
    Worker,
    // The worker has a section.
    Busy,
    // The number is not above the last finished one.
    Number,
    // The section fails the check.
    Section(Fault),
    // The image's length or header is wrong.
    Image,
    // This worker's cursor is on no turn of its section.
    Cursor(usize),
}

impl From<Fault> for Refusal {
    ghost from_gives = { λ f r. r ≡ Section f };

    fn from(f: Fault) -> Refusal {
        Refusal::Section(f)
    }
}

// What document 01 tells of a refusal: its number, and the step, worker or lock that goes with it, 0 where there is none.
pub trait Cause {
    ghost cause_of: { Self → ℕ };

    ghost value_of: { Self → ℕ };

    fn cause(self) -> u64
        ensures { result ≡ cause_of self };

    fn value(self) -> u64
        ensures { result ≡ value_of self };
}

impl Cause for Fault {
    ghost cause_of = { fault_cause };

    ghost value_of = { fault_step };

    fn cause(self) -> u64 {
        match self {
            Fault::Length => 4,
            Fault::Malformed(_) => 5,
            Fault::Unbracketed(_) => 6,
            Fault::Unordered(_) => 7,
            Fault::Unguarded(_) => 8,
            Fault::Unlevel(_) => 9,
        }
    }

    fn value(self) -> u64 {
        match self {
            Fault::Length => 0,
            Fault::Malformed(i)
            | Fault::Unbracketed(i)
            | Fault::Unordered(i)
            | Fault::Unguarded(i)
            | Fault::Unlevel(i) => i as u64,
        }
    }
}

impl Cause for Refusal {
    ghost cause_of = { refusal_cause };

    ghost value_of = { refusal_value };

    fn cause(self) -> u64 {
        match self {
            Refusal::Worker => 1,
            Refusal::Busy => 2,
            Refusal::Number => 3,
            Refusal::Section(f) => f.cause(),
            Refusal::Image => 10,
            Refusal::Cursor(_) => 11,
        }
    }

    fn value(self) -> u64 {
        match self {
            Refusal::Section(f) => f.value(),
            Refusal::Cursor(d) => d as u64,
            _ => 0,
        }
    }
}

// The number of an answer: 0, or that of its refusal.
pub fn code<T: Copy, E: Cause + Copy>(r: Result<T, E>) -> u64
    ensures { result ≡ code_of E.cause_of r }
{
    match r {
        Ok(_) => 0,
        Err(e) => e.cause(),
    }
}

// The step, worker or lock that goes with it; 0 where there is none.
pub fn detail<T: Copy, E: Cause + Copy>(r: Result<T, E>) -> u64
    ensures { result ≡ detail_of E.value_of r }
{
    match r {
        Ok(_) => 0,
        Err(e) => e.value(),
    }
}

impl Cursors {
    // All workers idle, and no lock held.
    #[tactic(auto, unfolding(crate::specs::Cursor::all_idle))]
    pub fn all_idle() -> Cursors
        ensures { result ≡ all_idle }
    {
        Cursors {
            step: [0; 8],
            turn: [255; 8],
            held: 0,
        }
    }

    // Whether worker d is idle; a worker that the record has not is.
    pub fn idle(self, d: usize) -> bool
        ensures { result ≡ is_idle (cursor_at self d) }
    {
        8 <= d || self.turn[d] == 255
    }

    // The record with worker d at step s, turn t. The two arrays are copied one by one, which was measured to be faster than a copy of the whole.
    pub fn place(self, d: usize, s: u8, t: u8) -> Cursors
        ensures { result ≡ set_at self d s t }
    {
        let mut step = self.step;
        let mut turn = self.turn;
        put(&mut step, &mut turn, d, s, t);
        Cursors {
            step,
            turn,
            held: self.held,
        }
    }

    // How many locks are held.
    pub fn locks_held(self) -> u64
        ensures { result ≡ locks_held self }
    {
        mask::count(self.held) as u64
    }
}

// One byte of an array, if it has the index. (By the index: of what the array is after a store through `get_mut` nothing is promised.)
fn put_byte(bytes: &mut [u8], i: usize, v: u8)
    ensures { bytes.new ≡ set bytes.old i v }
{
    if i < bytes.len() {
        bytes[i] = v;
    }
}

// Worker d put at step s, turn t in a record's two arrays; a worker that they have not is put nowhere.
#[tactic(auto, unfolding(crate::specs::Cursor::set_at))]
pub fn put(step: &mut [u8; 8], turn: &mut [u8; 8], d: usize, s: u8, t: u8)
    ensures { (h : ℕ) → cursors step.new turn.new h ≡ set_at (cursors step.old turn.old h) d s t }
{
    put_byte(step, d, s);
    put_byte(turn, d, t);
}
