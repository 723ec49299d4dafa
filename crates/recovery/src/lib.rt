// Recovery after a cut: it refuses an image with causes 10, 12 and 13, or frees and takes again the locks, so that every
// section that was begun can go on where its log says.
#![tactic(auto)]

ghost use Rattle.std.specs.Prelude.{◌≡◌};
ghost use Rattle.image.specs.Image.{header_ok};
ghost use Rattle.soundness.specs.Inner.Tests.{found};
ghost use Rattle.recovery.specs.Recovery.{recovery};
ghost use Rattle.recovery.specs.Recover.{answer_of, cursors_of, recovery_leaves, recovery_left};
ghost use Rattle.recovery.specs.Inner.Found.{owed_found};
ghost use Rattle.recovery.specs.Repairs.{repair_by};

use image::Edition;
use repair::Repair;
use soundness::Refusal;
use working::Cursors;

// What a recovery answers; refused, with all workers idle and a repair that stores nothing.
#[derive(Clone, Copy)]
pub struct Restored {
    pub answer: Result<(), Refusal>,
    pub cursors: Cursors,
    pub repair: Repair,
}

// Whether the header is right. An image that ends before its records is refused first: the compiler then sees that all owner
// words are there, and leaves out the tests of their loads and stores.
fn header_ok(image: &[u64], e: Edition) -> bool
    ensures { result ≡ header_ok e.mark e.own image.now }
{
    image::record_at(0, e.own) <= image::words(image) && image::header_ok(image, e)
}

// Causes 10, 12 by worker, 13 by the lowest lock; or the owed sets.
fn judge(image: &[u64], e: Edition) -> Result<[u64; 8], Refusal>
    ensures { result ≡ found (answer_of (recovery e.mark e.own image.now)) (owed_found e.mark e.own image.now) }
{
    if !header_ok(image, e) {
        return Err(Refusal::Image);
    }
    let sets = soundness::records::records(image, e.own)?;
    soundness::locks::locks(image, &sets, e.own)?;
    Ok(sets)
}

// What a recovery of an edition answers.
fn planned(image: &[u64], e: Edition) -> Restored
    ensures answer { result.answer ≡ answer_of (recovery e.mark e.own image.now) }
    ensures cursors { result.cursors ≡ cursors_of (recovery e.mark e.own image.now) }
    ensures repair { result.repair ≡ repair_by e.own image.now (recovery e.mark e.own image.now) }
{
    match judge(image, e) {
        Ok(sets) => Restored {
            answer: Ok(()),
            cursors: resuming::resumed_all(image, sets, e.own),
            repair: repair::stock::repair(image, sets, e.own),
        },
        Err(r) => Restored {
            answer: Err(r),
            cursors: Cursors::all_idle(),
            repair: repair::no_repair(),
        },
    }
}

// Recovers an image after a cut.
pub fn recover(image: &mut [u64], e: Edition, left: &mut u64) -> Restored
    ensures answer { result.answer ≡ answer_of (recovery e.mark e.own image.old) }
    ensures cursors { result.cursors ≡ cursors_of (recovery e.mark e.own image.old) }
    ensures repair { result.repair ≡ repair_by e.own image.old (recovery e.mark e.own image.old) }
    ensures image { image.new ≡ recovery_leaves e.own left.old image.old (recovery e.mark e.own image.old) }
    ensures left { left.new ≡ recovery_left left.old (recovery e.mark e.own image.old) }
{
    let r = planned(image, e);
    repair::storing::store_all(image, r.repair, e.own, left);
    r
}
