// Rows of stores: words from an index up. The stores left are kept in a local meanwhile, so that a loop keeps them in a register.
#![tactic(auto)]

ghost use Rattle.std.specs.Prelude.{◌≡◌, ◌+◌, ◌-◌, ◌≤◌, length, replicate};
ghost use Rattle.rows.specs.Rows.{put_from};

// Stores the words of a list from an index up.
pub fn store_words(image: &mut [u64], at: usize, words: &[u64], left: &mut u64)
    requires { at + length words.now ≤ length image.old }
    ensures image { image.new ≡ put_from left.old image.old at words.now }
    ensures left { left.new ≡ left.old - length words.now }
{
    let mut rest = *left;
    for (i, w) in words.iter().enumerate() {
        image::store_inside(image, at + i, *w, &mut rest);
    }
    *left = rest;
}

// Stores 0 in k words from an index up, one by one and in their order; two in each round of the loop, which halves its rounds.
pub fn clear(image: &mut [u64], at: usize, k: usize, left: &mut u64)
    requires { at + k ≤ length image.old }
    ensures image { image.new ≡ put_from left.old image.old at (replicate k 0) }
    ensures left { left.new ≡ left.old - k }
{
    let mut rest = *left;
    for i in 0..k / 2 {
        image::store_inside(image, at + 2 * i, 0, &mut rest);
        image::store_inside(image, at + 2 * i + 1, 0, &mut rest);
    }
    if k % 2 == 1 {
        image::store_inside(image, at + k - 1, 0, &mut rest);
    }
    *left = rest;
}
