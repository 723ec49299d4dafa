// The worker's log: two entries of an address and a value, of which the pc's top bit names the active one; and the logged
// store of four turns. The words that an instruction names stand in words.rt.
#![tactic(auto)]

pub mod words;

ghost use Rattle.std.specs.Prelude.{◌≡◌, ℕ, ◌+◌, ◌<◌};
ghost use Rattle.image.specs.Place.{field};
ghost use Rattle.image.specs.Image.{at};
ghost use Rattle.image.specs.Inner.Inside.{Inside};
ghost use Rattle.worklog.specs.Log.{second, spare_addr, spare_val, active_addr, active_val, switched};
ghost use Rattle.worklog.specs.Inner.Logged.{logged_plan};

use image::{Field, Word};

// Why a turn passes: it is a jump, or a release that finds its lock's owner word to be 0 or another's.
#[derive(Clone, Copy)]
pub enum Passing {
    Jump,
    AlreadyFree,
    Others,
}

// What the turn of an open worker that is not refused is to do, worked out before anything is stored: a store, or none and why, with
// the cursor after it; or to wait at a lock. The store of a lock's owner word says the lock: it is taken, or freed with 0.
#[derive(Clone, Copy)]
pub enum Plan {
    Store {
        at: usize,
        value: u64,
        step: u8,
        turn: u8,
    },
    Take {
        lock: u64,
        value: u64,
        step: u8,
        turn: u8,
    },
    Free {
        lock: u64,
        step: u8,
        turn: u8,
    },
    Pass {
        why: Passing,
        step: u8,
        turn: u8,
    },
    Wait(u64),
}

// Whether log entry 1 is active.
#[tactic(auto, unfolding(crate::specs::Log::second))]
fn second(image: &[u64], d: usize, own: usize) -> bool
    requires { Inside own image.now d }
    ensures { result ≡ second own (at own image.now) d }
{
    image::read_field(image, Field::Pc, d, own) >> 63 != 0
}

// The two words of a log entry.
#[derive(Clone, Copy)]
pub struct Entry {
    pub addr: Field,
    pub val: Field,
}

const ENTRY_0: Entry = Entry {
    addr: Field::Addr0,
    val: Field::Val0,
};

const ENTRY_1: Entry = Entry {
    addr: Field::Addr1,
    val: Field::Val1,
};

// The entry that is not active.
#[tactic(auto, unfolding(crate::specs::Log::spare_addr, crate::specs::Log::spare_val))]
pub fn spare(image: &[u64], d: usize, own: usize) -> Entry
    requires { Inside own image.now d }
    ensures addr { result.addr ≡ spare_addr own (at own image.now) d }
    ensures val { result.val ≡ spare_val own (at own image.now) d }
{
    if second(image, d, own) {
        ENTRY_0
    } else {
        ENTRY_1
    }
}

// The active entry.
#[tactic(auto, unfolding(crate::specs::Log::active_addr, crate::specs::Log::active_val))]
fn active(image: &[u64], d: usize, own: usize) -> Entry
    requires { Inside own image.now d }
    ensures addr { result.addr ≡ active_addr own (at own image.now) d }
    ensures val { result.val ≡ active_val own (at own image.now) d }
{
    if second(image, d, own) {
        ENTRY_1
    } else {
        ENTRY_0
    }
}

// The address that the active entry logs.
pub fn logged_addr(image: &[u64], d: usize, own: usize) -> u64
    requires { Inside own image.now d }
    ensures { result ≡ at own image.now (field (active_addr own (at own image.now) d) d) }
{
    image::read_field(image, active(image, d, own).addr, d, own)
}

// The value that it logs.
pub fn logged_value(image: &[u64], d: usize, own: usize) -> u64
    requires { Inside own image.now d }
    ensures { result ≡ at own image.now (field (active_val own (at own image.now) d) d) }
{
    image::read_field(image, active(image, d, own).val, d, own)
}

// The pc that names step s and the entry that is not active.
#[tactic(auto, unfolding(crate::specs::Log::switched))]
pub fn switched(image: &[u64], d: usize, own: usize, s: u8) -> u64
    requires { Inside own image.now d }
    ensures { result ≡ switched own (at own image.now) d s }
{
    let next = s as u64 + 1;
    if second(image, d, own) {
        next
    } else {
        next + (1 << 63)
    }
}

// What turn j of a logged store of v at an index stores in the record, at step s: the address, the value, or the pc.
fn record_word(image: &[u64], d: usize, own: usize, s: u8, target: usize, v: u64, j: u8) -> Word
    requires { (Inside own image.now d) × (j < 3) }
    ensures { (t ns nt : ℕ)
        → Plan.Store result.at result.value s (t + 1) ≡ logged_plan own (at own image.now) d s t target v ns nt j }
{
    match j {
        0 => Word {
            at: image::field_index(spare(image, d, own).addr, d, own),
            value: target as u64,
        },
        1 => Word {
            at: image::field_index(spare(image, d, own).val, d, own),
            value: v,
        },
        _ => Word {
            at: image::field_index(Field::Pc, d, own),
            value: switched(image, d, own, s),
        },
    }
}

// Turn j of a logged store of v at an index, at step s, turn t; the cursor after its last turn is step ns, turn nt.
pub fn logged(
    image: &[u64],
    d: usize,
    own: usize,
    s: u8,
    t: u8,
    target: usize,
    v: u64,
    ns: u8,
    nt: u8,
    j: u8,
) -> Plan
    requires { (Inside own image.now d) × (t < 6) }
    ensures { result ≡ logged_plan own (at own image.now) d s t target v ns nt j }
{
    if 2 < j {
        return Plan::Store {
            at: target,
            value: logged_value(image, d, own),
            step: ns,
            turn: nt,
        };
    }
    let w = record_word(image, d, own, s, target, v, j);
    Plan::Store {
        at: w.at,
        value: w.value,
        step: s,
        turn: t + 1,
    }
}
