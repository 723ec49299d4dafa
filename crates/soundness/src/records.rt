// Whether a worker's record is sound: cause 12.
ghost use Rattle.std.specs.Prelude.{◌≡◌, true, length, ◌-◌, ◌≤◌, IfOk};
ghost use Rattle.std.specs.Bool.{then_some};
ghost use Rattle.image.specs.Place.{field};
ghost use Rattle.image.specs.Image.{at, workers, length_of};
ghost use Rattle.image.specs.Inner.Inside.{Inside};
ghost use Rattle.section.specs.Check.{check, passes};
ghost use Rattle.worklog.specs.Log.{code_in};
ghost use Rattle.owed.specs.Owed.{owed};
ghost use Rattle.soundness.specs.Sound.{eight, owed_at, section_ok, pc_ok, sound, unsound};
ghost use Rattle.soundness.specs.Inner.Reading.{Helds, loaded, owed_by};
ghost use Rattle.soundness.specs.Inner.Tests.{by_record, told, found};

use crate::Refusal;
use code::{Op, held_after, op_of};
use image::Field;

// Loads the first k instruction words of worker d's record.
pub fn load_steps(image: &[u64], d: usize, k: usize, own: usize, words: &mut [u64; 64])
    requires { (Inside own image.now d) × (k ≤ 64) }
    ensures { words.new ≡ loaded (code_in own (at own image.now) d) words.old k }
{
    for (i, word) in words[..k].iter_mut().enumerate() {
        *word = image::read_step(image, d, i, own);
    }
}

// Whether the first k instruction words of worker d's record, each loaded, pass the check, which then leaves the held sets.
fn section_passes(image: &[u64], d: usize, k: usize, own: usize, held: &mut [u64]) -> bool
    requires { (Inside own image.now d) × (k ≤ 64) × (64 ≤ length held.old) }
    ensures passes { result ≡ passes (check own k (code_in own (at own image.now) d)) }
    ensures sets { result ≡ true → Helds own (at own image.now) d k held.new }
{
    let mut words = [0u64; 64];
    load_steps(image, d, k, own, &mut words);
    section::check_held(&words[..k], own as u16, held).is_ok()
}

// Whether worker d has no section, or one that passes the check, with a number that may be under way. The held sets are left.
fn section_ok(image: &[u64], d: usize, own: usize, held: &mut [u64]) -> bool
    requires { (Inside own image.now d) × (64 ≤ length held.old) }
    ensures ok { result ≡ section_ok own (at own image.now) d }
    ensures sets { result ≡ true → Helds own (at own image.now) d (at own image.now (field Field.Count d)) held.new }
{
    let k = image::read_field(image, Field::Count, d, own);
    if k == 0 {
        return image::read_field(image, Field::Pc, d, own) == 0;
    }
    if 64 < k || !section_passes(image, d, k as usize, own, held) {
        return false;
    }
    let number = image::read_field(image, Field::Number, d, own);
    1 <= number && image::read_field(image, Field::Finished, d, own) <= number
}

// The owed set, where the pc names no step, with nothing owned, or one whose entry is right, with the set before or after it owned.
fn owed_at_pc(image: &[u64], d: usize, own: usize, held: &[u64]) -> Option<u64>
    requires { (Inside own image.now d) × (section_ok own (at own image.now) d ≡ true) × (64 ≤ length held.now)
        × Helds own (at own image.now) d (at own image.now (field Field.Count d)) held.now }
    ensures { result ≡ then_some (pc_ok own (at own image.now) d) (owed own (at own image.now) d) }
{
    let owned = image::read_field(image, Field::Owned, d, own);
    let pc = image::read_field(image, Field::Pc, d, own);
    if pc == 0 {
        return (owned == 0).then_some(0);
    }
    let p = pc % 9223372036854775808;
    if p < 1 || image::read_field(image, Field::Count, d, own) <= p - 1 {
        return None;
    }
    let s = p as usize - 1;
    let x = op_of(image::read_step(image, d, s, own));
    let here = held[s];
    let next = held_after(here, x);
    if !owed::entry_ok(image, d, x, next, own) {
        return None;
    }
    owed::owned_ok(owned, here, next).then_some(owed::owed_by(x, next, owned))
}

// The owed set of worker d, where its record is sound. The held sets of its section go through `held`.
fn owed_if_sound(image: &[u64], d: usize, own: usize, held: &mut [u64]) -> Option<u64>
    requires { (Inside own image.now d) × (64 ≤ length held.old) }
    ensures { result ≡ then_some (sound own (at own image.now) d) (owed own (at own image.now) d) }
{
    if !section_ok(image, d, own, held) {
        return None;
    }
    let set = owed_at_pc(image, d, own, held)?;
    owed::covers(image::read_field(image, Field::Intent, d, own), set).then_some(set)
}

// The owed sets of the workers from one up to another where their records are sound, or the first of them whose record is not. (One loop for all
// records and for one, so that the machine code has the test of a record once, in the loop.)
fn judged(image: &[u64], first: usize, end: usize, own: usize) -> Result<[u64; 8], Refusal>
    requires { (own ≤ 64) × (workers image.now ≤ 8) × (length image.now ≡ length_of own (workers image.now)) × (first ≤ end)
        × (end ≤ workers image.now) }
    ensures answer { told result ≡ by_record (unsound own (at own image.now) end first (end - first)) }
    ensures owed { first ≡ 0 → IfOk result (λ sets. sets ≡ eight (owed_at own (at own image.now) end)) }
{
    let mut sets = [0u64; 8];
    let mut held = [0u64; 64];
    for d in first..end {
        sets[d] = owed_if_sound(image, d, own, &mut held).ok_or(Refusal::Record(d))?;
    }
    Ok(sets)
}

// The owed sets of all workers where all records are sound, or the first worker whose record is not.
pub fn records(image: &[u64], own: usize) -> Result<[u64; 8], Refusal>
    requires { (own ≤ 64) × (workers image.now ≤ 8) × (length image.now ≡ length_of own (workers image.now)) }
    ensures { let refused = unsound own (at own image.now) (workers image.now) 0 (workers image.now) in
        result ≡ found (by_record refused) (owed_by own (at own image.now) (workers image.now) refused) }
{
    judged(image, 0, image::workers(image) as usize, own)
}

// Whether a worker's record with no section in it is sound: nothing is named, and nothing owned.
fn empty_sound(image: &[u64], d: usize, own: usize) -> bool
    requires { (Inside own image.now d) × (at own image.now (field Field.Count d) ≡ 0) }
    ensures { result ≡ sound own (at own image.now) d }
{
    image::read_field(image, Field::Pc, d, own) == 0
        && image::read_field(image, Field::Owned, d, own) == 0
}

// Whether one worker's record is sound.
pub fn record_sound(image: &[u64], d: usize, own: usize) -> bool
    requires { Inside own image.now d }
    ensures { result ≡ sound own (at own image.now) d }
{
    if image::read_field(image, Field::Count, d, own) == 0 {
        return empty_sound(image, d, own);
    }
    judged(image, d, d + 1, own).is_ok()
}
