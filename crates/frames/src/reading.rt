// What a line says, by its length and its digits.
ghost use Rattle.std.specs.Prelude.{◌≡◌, ◌≤◌, ◌/◌, ◌++◌, length, drop};
ghost use Rattle.frames.specs.Line.{first_of, frame_of, submit_frame, turns_frame, recover_frame, rounds_frame, steps_part, arguments_of, words_of};

use crate::{Frame, digits};

#[tactic(auto, unfolding(crate::specs::Line::first_of))]
pub fn first(line: &[u8]) -> Option<u64>
    ensures { result ≡ first_of line.now }
{
    if line.len() == 2 && digits::all_digits(line) {
        Some(digits::number(line, 0, 2))
    } else {
        None
    }
}

// 01: the steps' part has any number of instructions.
#[tactic(auto, unfolding(crate::specs::Line::submit_frame))]
fn submit(line: &[u8]) -> Frame
    ensures { result ≡ submit_frame line.now }
{
    let n = line.len();
    if n < 148 || (n - 148) % 16 != 0 {
        return Frame::Malformed;
    }
    Frame::Submit {
        worker: digits::number(line, 2, 2) as usize,
        number: digits::number(line, 4, 16),
    }
}

// 02.
#[tactic(auto, unfolding(crate::specs::Line::turns_frame))]
fn turns(line: &[u8]) -> Frame
    ensures { result ≡ turns_frame line.now }
{
    if line.len() != 8 {
        return Frame::Malformed;
    }
    Frame::Turns {
        worker: digits::number(line, 2, 2) as usize,
        turns: digits::number(line, 4, 4),
    }
}

// 03.
#[tactic(auto, unfolding(crate::specs::Line::recover_frame))]
fn recover(line: &[u8]) -> Frame
    ensures { result ≡ recover_frame line.now }
{
    if line.len() != 2 {
        return Frame::Malformed;
    }
    Frame::Recover
}

// 04.
#[tactic(auto, unfolding(crate::specs::Line::rounds_frame))]
fn rounds(line: &[u8]) -> Frame
    ensures { result ≡ rounds_frame line.now }
{
    if line.len() != 6 {
        return Frame::Malformed;
    }
    Frame::Rounds(digits::number(line, 2, 4))
}

#[tactic(auto, unfolding(crate::specs::Line::frame_of, crate::specs::Line::by_kind))]
pub fn read(line: &[u8]) -> Frame
    ensures { result ≡ frame_of line.now }
{
    let n = line.len();
    if 4096 < n || !digits::all_digits(line) || n < 2 {
        return Frame::Malformed;
    }
    match digits::number(line, 0, 2) {
        1 => submit(line),
        2 => turns(line),
        3 => recover(line),
        4 => rounds(line),
        _ => Frame::Malformed,
    }
}

pub fn steps_part(line: &[u8]) -> &[u8]
    ensures { result.now ≡ steps_part line.now }
{
    if 148 <= line.len() {
        &line[148..]
    } else {
        &line[..0]
    }
}

// The arguments of a submit.
pub fn arguments(line: &[u8]) -> [u64; 8]
    requires { 148 ≤ length line.now }
    ensures { result ≡ arguments_of line.now }
{
    std::array::from_fn(|i| digits::number(line, 20 + 16 * i, 16))
}

// Puts the words of a steps' part at the start of a lent slice, and answers how many they are. What is behind them stays.
pub fn words(part: &[u8], out: &mut [u64]) -> usize
    requires { length part.now / 16 ≤ length out.old }
    ensures count { result ≡ length part.now / 16 }
    ensures words { out.new ≡ words_of part.now ++ drop (length part.now / 16) out.old }
{
    let n = part.len() / 16;
    for i in 0..n {
        out[i] = digits::number(part, 16 * i, 16);
    }
    n
}
