// Submitting a section: the causes before the check, the check, and the stores of a section that is taken.
ghost use Rattle.std.specs.Prelude.{◌≡◌, ℕ, ◌+◌, ◌-◌, ◌<◌, ◌≤◌, ◌++◌, length, replicate};
ghost use Rattle.image.specs.Place.{field, own, step};
ghost use Rattle.image.specs.Image.{index_of, put, put_all};
ghost use Rattle.image.specs.Inner.Inside.{Inside};
ghost use Rattle.working.specs.World.{world};
ghost use Rattle.intake.specs.Submit.{assigns, submission, free, submit_answer};
ghost use Rattle.intake.specs.Split.{before_check};

use image::{Edition, Field};
use working::{Cursors, Refusal};

// One word of worker d's record.
fn store_field(image: &mut [u64], f: Field, d: usize, value: u64, n: usize, left: &mut u64)
    requires { (d < 8) × (n ≤ 64) }
    ensures image { image.new ≡ put left.old image.old (index_of n (field f d)) value }
    ensures left { left.new ≡ left.old - 1 }
{
    image::store(image, image::field_index(f, d, n), value, left);
}

// The own words of a section: the arguments, then 0.
fn store_own(image: &mut [u64], d: usize, args: &[u64; 8], n: usize, left: &mut u64)
    requires { (d < 8) × (8 ≤ n) × (n ≤ 64) × (index_of n (own d 0) + n ≤ length image.old) }
    ensures image { image.new
        ≡ put_all n left.old image.old (assigns (own d) 0 (args.now ++ replicate (n - 8) 0)) }
    ensures left { left.new ≡ left.old - length (assigns (own d) 0 (args.now ++ replicate (n - 8) 0)) }
{
    let own = image::own_index(d, 0, n);
    rows::store_words(image, own, args, left);
    rows::clear(image, own + 8, n - 8, left);
}

// Its instructions.
fn store_steps(image: &mut [u64], d: usize, words: &[u64], n: usize, left: &mut u64)
    requires { (d < 8) × (n ≤ 64) × (index_of n (step d 0) + length words.now ≤ length image.old) }
    ensures image { image.new ≡ put_all n left.old image.old (assigns (step d) 0 words.now) }
    ensures left { left.new ≡ left.old - length (assigns (step d) 0 words.now) }
{
    rows::store_words(image, image::step_index(d, 0, n), words, left);
}

// The stores of a section that is taken.
pub fn store_section(
    image: &mut [u64],
    d: usize,
    number: u64,
    args: &[u64; 8],
    words: &[u64],
    n: usize,
    left: &mut u64,
)
    requires { (Inside n image.old d) × (8 ≤ n) × (length words.now ≤ 64) }
    ensures image { image.new
        ≡ put_all n left.old image.old (submission n d number args.now words.now) }
    ensures left { left.new ≡ left.old - length (submission n d number args.now words.now) }
{
    store_field(image, Field::Number, d, number, n, left);
    store_own(image, d, args, n, left);
    store_steps(image, d, words, n, left);
    store_field(image, Field::Count, d, words.len() as u64, n, left);
}

// Whether worker d has no section.
#[tactic(auto, unfolding(crate::specs::Submit::free))]
fn free(image: &[u64], c: Cursors, d: usize, own: usize) -> bool
    requires { Inside own image.now d }
    ensures { (k : ℕ) → result ≡ free own (world image.now c k) d }
{
    c.idle(d)
        && image::read_field(image, Field::Count, d, own) == 0
        && image::read_field(image, Field::Pc, d, own) == 0
}

// Causes 10, 1, 2, 3: whether worker d can be given a section of this number, whatever the section.
#[tactic(auto, unfolding(crate::specs::Split::before_check))]
fn before_check(image: &[u64], c: Cursors, d: usize, number: u64, e: Edition) -> Result<(), Refusal>
    ensures { (k : ℕ) → result ≡ before_check e.mark e.own (world image.now c k) d number }
{
    if !image::header_ok(image, e) {
        return Err(Refusal::Image);
    }
    if image::workers(image) <= d as u64 {
        return Err(Refusal::Worker);
    }
    if !free(image, c, d, e.own) {
        return Err(Refusal::Busy);
    }
    if number <= image::read_field(image, Field::Finished, d, e.own) {
        return Err(Refusal::Number);
    }
    Ok(())
}

// Whether a section is taken, or why not: causes 10, 1, 2, 3, and then the very check that `section` has by itself.
#[tactic(auto, using(crate::proofs::Split::submit_divides))]
pub fn judge(
    image: &[u64],
    c: Cursors,
    d: usize,
    number: u64,
    words: &[u64],
    e: Edition,
) -> Result<(), Refusal>
    ensures { (k : ℕ) → result ≡ submit_answer e.mark e.own (world image.now c k) d number words.now }
{
    before_check(image, c, d, number, e)?;
    Ok(section::check(words, e.own as u16)?)
}
