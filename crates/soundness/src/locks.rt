// Whether the locks are right: cause 13. The owed sets are those that `records` found.
ghost use Rattle.std.specs.Prelude.{◌≡◌, ◌<◌, ◌≤◌, length};
ghost use Rattle.image.specs.Image.{at, workers, length_of};
ghost use Rattle.soundness.specs.Sound.{eight, bad_lock, owed_at};
ghost use Rattle.soundness.specs.Inner.Tests.{by_lock};

use crate::Refusal;

// Whether no two workers are owed the same lock, and each owner word is right, or the lowest lock that is wrong.
pub fn locks(image: &[u64], sets: &[u64], own: usize) -> Result<(), Refusal>
    requires { (own ≤ 64) × (workers image.now ≤ 8) × (sets.now ≡ eight (owed_at own (at own image.now) (workers image.now)))
        × (length image.now ≡ length_of own (workers image.now)) }
    ensures { result ≡ by_lock (bad_lock own (at own image.now) (workers image.now) 0 64) }
{
    let end = owed::shared(&sets[..image::workers(image) as usize]);
    for b in 0..end {
        if !owed::owner_ok(image, b, own) {
            return Err(Refusal::Lock(b));
        }
    }
    if end < 64 {
        return Err(Refusal::Lock(end));
    }
    Ok(())
}
