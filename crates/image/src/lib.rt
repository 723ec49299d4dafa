// The image: how many words it has, single-word loads and stores, the header test, and the index of each place. Nothing
// above this crate touches an image in another way.
#![tactic(auto)]

ghost use Rattle.std.specs.Prelude.{◌≡◌, ℕ, ◌+◌, ◌-◌, ◌<◌, ◌≤◌, length, get_or};
ghost use Rattle.image.specs.Place.{cell, lock, field, own, step, offset};
ghost use Rattle.image.specs.Image.{front, put, header_ok, record_at, index_of, workers, at};
ghost use Rattle.image.specs.Inner.Inside.{Inside};

// The words of an image before its records.
pub const FRONT: usize = 584;

// The words of a record but for the own words.
pub const REST: usize = 74;

// The single words of a worker's record, in their order.
#[derive(Clone, Copy)]
pub enum Field {
    Count,
    Pc,
    Addr0,
    Val0,
    Addr1,
    Val1,
    Intent,
    Owned,
    Number,
    Finished,
}

// What an edition fixes: the mark in word 0 of its images, and how many own words a record has.
#[derive(Clone, Copy)]
pub struct Edition {
    pub mark: u64,
    pub own: usize,
    pub ghost few: { own ≤ 64 },
}

// An index of an image, and a word for it.
#[derive(Clone, Copy)]
pub struct Word {
    pub at: usize,
    pub value: u64,
}

// How many words an image has.
pub fn words(image: &[u64]) -> usize
    ensures { result ≡ length image.now }
{
    image.len()
}

// The word at an index; 0 past the end.
pub fn load(image: &[u64], at: usize) -> u64
    ensures { result ≡ get_or image.now at 0 }
{
    if at < image.len() { image[at] } else { 0 }
}

// The word at an index that the image has, with no test: who knows that it is inside is spared one (docs/DECISIONS.md).
pub fn load_inside(image: &[u64], at: usize) -> u64
    requires { at < length image.now }
    ensures { result ≡ get_or image.now at 0 }
{
    image[at]
}

// Stores one word while stores are left. A store past the end changes nothing and is taken off all the same.
#[tactic(auto, unfolding(crate::specs::Image::put))]
pub fn store(image: &mut [u64], at: usize, value: u64, left: &mut u64)
    ensures image { image.new ≡ put left.old image.old at value }
    ensures left { left.new ≡ left.old - 1 }
{
    let k = *left;
    if k == 0 {
        return;
    }
    if at < image.len() {
        image[at] = value;
    }
    *left = k - 1;
}

// The same at an index that the image has, with no test of it.
#[tactic(auto, unfolding(crate::specs::Image::put))]
pub fn store_inside(image: &mut [u64], at: usize, value: u64, left: &mut u64)
    requires { at < length image.old }
    ensures image { image.new ≡ put left.old image.old at value }
    ensures left { left.new ≡ left.old - 1 }
{
    let rest = *left;
    if rest == 0 {
        return;
    }
    image[at] = value;
    *left = rest - 1;
}

// Whether length and words 0 to 7 are right.
pub fn header_ok(image: &[u64], e: Edition) -> bool
    ensures { result ≡ header_ok e.mark e.own image.now }
{
    let n = image.len();
    if n < 8 {
        return false;
    }
    let d = image[1];
    (1..=8).contains(&d)
        && n == record_at(d as usize, e.own)
        && image[0] == e.mark
        && image[2] | image[3] | image[4] | image[5] | image[6] | image[7] == 0
}

// The start of worker d's record; of an image of d workers, its length.
#[tactic(auto, unfolding(crate::specs::Image::record_at))]
pub fn record_at(d: usize, own: usize) -> usize
    requires { (d ≤ 8) × (own ≤ 64) }
    ensures { result ≡ record_at own d }
{
    FRONT + (REST + own) * d
}

// The index of a cell.
#[tactic(auto, unfolding(crate::specs::Image::index_of))]
pub fn cell_index(x: u64) -> usize
    requires { x < 512 }
    ensures { (n : ℕ) → result ≡ index_of n (cell x) }
{
    8 + x as usize
}

// The index of a lock's owner word.
#[tactic(auto, unfolding(crate::specs::Image::index_of))]
pub fn lock_index(b: u64) -> usize
    requires { b < 64 }
    ensures { (n : ℕ) → result ≡ index_of n (lock b) }
{
    520 + b as usize
}

// The offset of a single word in its record.
fn offset_of(f: Field) -> usize
    ensures { result ≡ offset f }
{
    f as usize
}

// The index of a single word of worker d's record.
pub fn field_index(f: Field, d: usize, own: usize) -> usize
    requires { (d < 8) × (own ≤ 64) }
    ensures { result ≡ index_of own (field f d) }
{
    record_at(d, own) + offset_of(f)
}

// The index of a log entry's value word, by that of its address word, behind which it stands.
pub fn value_index(address: usize) -> usize
    requires { address < 65535 }
    ensures { result ≡ address + 1 }
{
    address + 1
}

// The index of own word i of worker d.
pub fn own_index(d: usize, i: usize, n: usize) -> usize
    requires { (d < 8) × (i < n) × (n ≤ 64) }
    ensures { result ≡ index_of n (own d i) }
{
    record_at(d, n) + (10 + i)
}

// The index of instruction i of worker d's section.
pub fn step_index(d: usize, i: usize, own: usize) -> usize
    requires { (d < 8) × (i < 64) × (own ≤ 64) }
    ensures { result ≡ index_of own (step d i) }
{
    record_at(d, own) + (10 + own + i)
}

// The word f of worker d's record.
pub fn read_field(image: &[u64], f: Field, d: usize, own: usize) -> u64
    requires { Inside own image.now d }
    ensures { result ≡ at own image.now (field f d) }
{
    load_inside(image, field_index(f, d, own))
}

// Instruction i of worker d's section.
pub fn read_step(image: &[u64], d: usize, i: usize, own: usize) -> u64
    requires { (Inside own image.now d) × (i < 64) }
    ensures { result ≡ at own image.now (step d i) }
{
    load_inside(image, step_index(d, i, own))
}

// A lock's owner word.
pub fn read_lock(image: &[u64], b: u64) -> u64
    requires { (b < 64) × (front ≤ length image.now) }
    ensures { (n : ℕ) → result ≡ at n image.now (lock b) }
{
    load_inside(image, lock_index(b))
}

// The number of workers that the header names.
#[tactic(auto, unfolding(crate::specs::Image::workers))]
pub fn workers(image: &[u64]) -> u64
    ensures { result ≡ workers image.now }
{
    load(image, 1)
}
