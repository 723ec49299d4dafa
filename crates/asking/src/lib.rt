// The questions about a worker of an image.
#![tactic(auto)]

ghost use Rattle.std.specs.Prelude.{◌≡◌};
ghost use Rattle.image.specs.Image.{at};
ghost use Rattle.image.specs.Inner.Inside.{Inside};
ghost use Rattle.asking.specs.Asking.{standing_in, standing_of, asked_of, finished_of};

use image::{Edition, Field};
use working::Refusal;

// How a worker stands to the section of a number.
#[derive(Clone, Copy)]
pub enum Standing {
    // Not submitted, or submitted and not begun: a recovery withdraws it, and it may be submitted again under this number.
    NotBegun,
    // The worker has begun it, and it will reach its end.
    Begun,
    // The worker's last finished number is this one or above it.
    Finished,
}

// The answer of a worker that the image has.
fn stands(image: &[u64], d: usize, number: u64, own: usize) -> Standing
    requires { Inside own image.now d }
    ensures { result ≡ standing_in (at own image.now) d number }
{
    if number <= image::read_field(image, Field::Finished, d, own) {
        return Standing::Finished;
    }
    if image::read_field(image, Field::Pc, d, own) != 0
        && image::read_field(image, Field::Number, d, own) == number
    {
        Standing::Begun
    } else {
        Standing::NotBegun
    }
}

// How worker d stands to the section of this number; refused as every question about it is.
#[tactic(auto, unfolding(crate::specs::Asking::standing_of, crate::specs::Asking::asked_of))]
pub fn standing_of(image: &[u64], d: usize, number: u64, e: Edition) -> Result<Standing, Refusal>
    ensures { result ≡ standing_of e.mark e.own image.now d number }
{
    asked(image, d, e)?;
    Ok(stands(image, d, number, e.own))
}

// Whether a question about worker d is answered, or why not: causes 10 and 1.
#[tactic(auto, unfolding(crate::specs::Asking::asked_of))]
pub fn asked(image: &[u64], d: usize, e: Edition) -> Result<(), Refusal>
    ensures { result ≡ asked_of e.mark e.own image.now d }
{
    if !image::header_ok(image, e) {
        return Err(Refusal::Image);
    }
    if image::workers(image) <= d as u64 {
        return Err(Refusal::Worker);
    }
    Ok(())
}

// The number of the last section that worker d finished; 0 where the question is refused.
#[tactic(auto, unfolding(crate::specs::Asking::finished_of, crate::specs::Asking::asked_of))]
pub fn finished(image: &[u64], d: usize, e: Edition) -> u64
    ensures { result ≡ finished_of e.mark e.own image.now d }
{
    match asked(image, d, e) {
        Ok(()) => image::read_field(image, Field::Finished, d, e.own),
        Err(_) => 0,
    }
}
