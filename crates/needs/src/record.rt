// What a worker's section still needs after a recovery: the named step from its target store on, and then what the steps behind it need.
ghost use Rattle.std.specs.Prelude.{◌≡◌, true, ◌≤◌};
ghost use Rattle.image.specs.Image.{at};
ghost use Rattle.image.specs.Inner.Inside.{Inside};
ghost use Rattle.section.specs.Check.{check, passes};
ghost use Rattle.worklog.specs.Log.{code_in};
ghost use Rattle.soundness.specs.Sound.{sound};
ghost use Rattle.needs.specs.From.{span};
ghost use Rattle.needs.specs.Left.{resumed_turns, span_left, left_of};

use crate::{Refusal, Span, ahead};
use code::Op;
use image::{Edition, Field};

// The turns of a named instruction from its target store on: a release still has its lock and its intent to store.
fn resumed_turns(x: Op) -> u64
    ensures { result ≡ resumed_turns x }
{
    match x {
        Op::Release(_) => 3,
        _ => 1,
    }
}

// What the first k instruction words of worker d's record, each loaded, need from a step on, where they pass the check.
fn span_in(image: &[u64], d: usize, k: usize, from: usize, own: usize) -> Span
    requires { (Inside own image.now d) × (k ≤ 64) × (from ≤ k) × (passes (check own k (code_in own (at own image.now) d)) ≡ true) }
    ensures { result ≡ span k (code_in own (at own image.now) d) from }
{
    let mut words = [0u64; 64];
    soundness::records::load_steps(image, d, k, own, &mut words);
    ahead::span_from(&words[..k], from)
}

// What worker d's section still needs, where its record is sound; nothing where none is begun.
fn span_left(image: &[u64], d: usize, own: usize) -> Span
    requires { (Inside own image.now d) × (sound own (at own image.now) d ≡ true) }
    ensures { result ≡ span_left own (at own image.now) d }
{
    let pc = image::read_field(image, Field::Pc, d, own);
    if pc == 0 {
        return Span::NONE;
    }
    let next = (pc % 9223372036854775808) as usize;
    let k = image::read_field(image, Field::Count, d, own) as usize;
    let turns = resumed_turns(code::op_of(image::read_step(image, d, next - 1, own)));
    let s = span_in(image, d, k, next, own);
    Span {
        fewest: turns + s.fewest,
        most: turns + s.most,
    }
}

// The fewest turns and the most that worker d's section still needs after a recovery; refused with causes 10, 1, and 12 for its record.
#[tactic(auto, unfolding(crate::specs::Left::left_of))]
pub fn left(image: &[u64], d: usize, e: Edition) -> Result<Span, Refusal>
    ensures { result ≡ left_of e.mark e.own image.now d }
{
    if !image::header_ok(image, e) {
        return Err(Refusal::Image);
    }
    if image::workers(image) <= d as u64 {
        return Err(Refusal::Worker);
    }
    if !soundness::records::record_sound(image, d, e.own) {
        return Err(Refusal::Record);
    }
    Ok(span_left(image, d, e.own))
}
