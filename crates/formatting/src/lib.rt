// Formatting an image for a number of workers.
#![tactic(auto)]

ghost use Rattle.std.specs.Prelude.{◌≡◌, true, ◌+◌, ◌-◌, ◌≤◌};
ghost use Rattle.image.specs.Image.{length_of};
ghost use Rattle.working.specs.Cursor.{all_idle};
ghost use Rattle.formatting.specs.Format.{image_words, formattable, format_stores, format_answer, format_leaves, format_left};

use image::Edition;
use working::{Cursors, Refusal};

// The answer of a formatting, and where the workers stand after it.
#[derive(Clone, Copy)]
pub struct Cleared {
    pub answer: Result<(), Refusal>,
    pub cursors: Cursors,
}

// The words of an image of so many workers; 0 for a number that no image has.
#[tactic(auto, unfolding(crate::specs::Format::image_words, image::specs::Image::length_of))]
pub fn image_words(workers: u64, own: usize) -> usize
    requires { own ≤ 64 }
    ensures { result ≡ image_words own workers }
{
    if (1..=8).contains(&workers) {
        image::record_at(workers as usize, own)
    } else {
        0
    }
}

// Whether an image of this length can hold so many workers.
#[tactic(auto, unfolding(crate::specs::Format::formattable, image::specs::Image::length_of))]
fn formattable(image: &[u64], workers: u64, own: usize) -> bool
    requires { own ≤ 64 }
    ensures { result ≡ formattable own image.now workers }
{
    (1..=8).contains(&workers) && image::words(image) == image::record_at(workers as usize, own)
}

// The stores of a formatting.
fn store_all(image: &mut [u64], workers: u64, e: Edition, left: &mut u64)
    requires { formattable e.own image.old workers ≡ true }
    ensures image { image.new ≡ format_stores e.mark e.own left.old image.old workers }
    ensures left { left.new ≡ left.old - (length_of e.own workers + 1) }
{
    let n = image::words(image);
    image::store(image, 0, 0, left);
    image::store(image, 1, workers, left);
    rows::clear(image, 2, n - 2, left);
    image::store(image, 0, e.mark, left);
}

// Formats an image for so many workers. All of them are idle, also where it is refused.
#[tactic(auto, unfolding(crate::specs::Format::format_answer))]
pub fn format(image: &mut [u64], workers: u64, e: Edition, left: &mut u64) -> Cleared
    ensures answer { result.answer ≡ format_answer e.own image.old workers }
    ensures cursors { result.cursors ≡ all_idle }
    ensures image { image.new
        ≡ format_leaves e.mark e.own left.old image.old workers (format_answer e.own image.old workers) }
    ensures left { left.new ≡ format_left e.own left.old workers (format_answer e.own image.old workers) }
{
    let cursors = Cursors::all_idle();
    if !formattable(image, workers, e.own) {
        return Cleared {
            answer: Err(Refusal::Image),
            cursors,
        };
    }
    store_all(image, workers, e, left);
    Cleared {
        answer: Ok(()),
        cursors,
    }
}
