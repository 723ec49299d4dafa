// The words that a section names: cells and the worker's own words by their numbers, and what an expression gives.
ghost use Rattle.std.specs.Prelude.{◌≡◌, ◌+◌, ◌-◌, ◌^◌, ◌<◌, ◌≤◌, min};
ghost use Rattle.image.specs.Image.{at, index_of};
ghost use Rattle.image.specs.Inner.Inside.{Inside};
ghost use Rattle.code.specs.Inner.Fits.{ranged};
ghost use Rattle.code.specs.Op.{of_two, eval};
ghost use Rattle.worklog.specs.Log.{operand, word_in};

use code::Expr;

// The index of word number x as worker d names it: the numbers from 0 are the cells', those from 512 the own words'.
pub fn operand_index(d: usize, x: u64, own: usize) -> usize
    requires { (d < 8) × (x < 512 + own) × (own ≤ 64) }
    ensures { result ≡ index_of own (operand d x) }
{
    let from = if x < 512 {
        image::cell_index(0)
    } else {
        image::own_index(d, 0, own) - 512
    };
    from + x as usize
}

// What it holds.
pub fn word(image: &[u64], d: usize, x: u64, own: usize) -> u64
    requires { (Inside own image.now d) × (x < 512 + own) }
    ensures { result ≡ word_in own (at own image.now) d x }
{
    image::load_inside(image, operand_index(d, x, own))
}

// What an expression of two words gives of what they hold: a sum stops at the largest word, a difference at 0.
#[tactic(auto, unfolding(code::specs::Op::of_two))]
pub fn combined(e: Expr, x: u64, y: u64) -> u64
    ensures { result ≡ of_two e x y }
{
    match e {
        Expr::Literal(_, _) => 0,
        Expr::Sum(_, _) => x.saturating_add(y),
        Expr::Difference(_, _) => x.saturating_sub(y),
        Expr::Less(_, _) => u64::from(x < y),
    }
}

// What an expression gives.
pub fn eval(image: &[u64], d: usize, e: Expr, own: usize) -> u64
    requires { (Inside own image.now d) × ranged own e }
    ensures { result ≡ eval (word_in own (at own image.now) d) e }
{
    match e {
        Expr::Literal(b, c) => 65536 * b + c,
        Expr::Sum(b, c) | Expr::Difference(b, c) | Expr::Less(b, c) => combined(
            e,
            word(image, d, b, own),
            word(image, d, c, own),
        ),
    }
}
