// The buffers of a day's input and output: lines found in the one, printed lines put into the other.
#![tactic(auto)]

mod input;
mod printing;

pub use input::{complete, line_end};
pub use printing::print;
