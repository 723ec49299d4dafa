// What an accepted recovery does: its stores in their order, worked out before the first of them, so that a caller can look at them one slot
// after the other.
#![tactic(auto)]

pub mod stock;
pub mod storing;

pub use stock::no_repair;

// The slots of a repair.
pub const SLOTS: usize = 592;

// What decides the stores of an accepted recovery. Its slots 0 to 591 are its stores in their order, or empty.
#[derive(Clone, Copy)]
pub struct Repair {
    pub workers: u64,
    // The locks that any worker intends.
    pub freed: u64,
    // The workers whose sections are not begun.
    pub withdrawn: u64,
    // The owed set of each worker.
    pub owed: [u64; 8],
}
