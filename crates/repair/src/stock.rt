// What decides the stores of a recovery, read off the image before the first of them.
ghost use Rattle.std.specs.Prelude.{◌≡◌};
ghost use Rattle.image.specs.Image.{at, workers};
ghost use Rattle.image.specs.Inner.Inside.{Inside};
ghost use Rattle.soundness.specs.Sound.{eight, owed_at};
ghost use Rattle.repair.specs.Plan.{unbegun};
ghost use Rattle.soundness.specs.Inner.Reading.{Restorable};
ghost use Rattle.repair.specs.Repair.{freed_by, withdrawn_by, repair_of, no_repair};

use crate::Repair;
use image::Field;

// The locks that any worker intends.
fn freed(image: &[u64], own: usize) -> u64
    requires { Restorable own image.now }
    ensures { result ≡ freed_by (at own image.now) (workers image.now) }
{
    let n = image::workers(image) as usize;
    let mut set: u64 = 0;
    for d in 0..n {
        set |= image::read_field(image, Field::Intent, d, own);
    }
    set
}

// Whether worker d has a section that is not begun.
fn unbegun(image: &[u64], d: usize, own: usize) -> bool
    requires { Inside own image.now d }
    ensures { result ≡ unbegun (at own image.now) d }
{
    image::read_field(image, Field::Pc, d, own) == 0
        && image::read_field(image, Field::Count, d, own) != 0
}

// The workers whose sections are withdrawn.
fn withdrawn(image: &[u64], own: usize) -> u64
    requires { Restorable own image.now }
    ensures { result ≡ withdrawn_by (at own image.now) (workers image.now) }
{
    let n = image::workers(image) as usize;
    let mut set: u64 = 0;
    for d in 0..n {
        if unbegun(image, d, own) {
            set = mask::with(set, d as u64);
        }
    }
    set
}

// The repair, with the owed sets that the test of the records found.
#[tactic(auto, unfolding(crate::specs::Repair::repair_of))]
pub fn repair(image: &[u64], sets: [u64; 8], own: usize) -> Repair
    requires { (Restorable own image.now) × (sets ≡ eight (owed_at own (at own image.now) (workers image.now))) }
    ensures { result ≡ repair_of own image.now }
{
    Repair {
        workers: image::workers(image),
        freed: freed(image, own),
        withdrawn: withdrawn(image, own),
        owed: sets,
    }
}

// The repair that stores nothing.
#[tactic(auto, unfolding(crate::specs::Repair::no_repair))]
pub fn no_repair() -> Repair
    ensures { result ≡ no_repair }
{
    Repair {
        workers: 0,
        freed: 0,
        withdrawn: 0,
        owed: [0; 8],
    }
}
