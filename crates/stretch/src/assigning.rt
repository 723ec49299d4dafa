// An assignment's turns back to back: what its expression gives, then a logged store.
ghost use Rattle.std.specs.Prelude.{◌≡◌, true, ◌+◌, ◌<◌, [], get_or, IfSome};
ghost use Rattle.std.specs.Option.{is_some};
ghost use Rattle.code.specs.Table.{table};
ghost use Rattle.image.specs.Image.{at};
ghost use Rattle.image.specs.Inner.Inside.{Inside};
ghost use Rattle.code.specs.Op.{of_two, eval};
ghost use Rattle.code.specs.Inner.Fits.{ranged};
ghost use Rattle.code.specs.Inner.Rows.{in_row, expr_row};
ghost use Rattle.worklog.specs.Log.{word_in};
ghost use Rattle.tally.specs.Inner.Passes.{passed};
ghost use Rattle.stretch.specs.Inner.Whole.{Here, Tried};

use crate::{Walk, logged};
use code::{DIFFERENCE, Expr, LESS, LITERAL, Op, SUM};
use tally::Passes;
use worklog::words;

// What an expression of two words gives, where the fields of its word are in their ranges by one row of the table.
fn of_two<const ROW: usize>(
    image: &[u64],
    d: usize,
    w: u64,
    e: Expr,
    b: u64,
    c: u64,
    own: usize,
) -> Option<u64>
    requires inside { (Inside own image.now d) × (ROW < 8) }
    requires ranges { in_row own w (get_or table ROW []) ≡ true → (b < 512 + own) × (c < 512 + own) }
    ensures fits { is_some result ≡ in_row own w (get_or table ROW []) }
    ensures word { IfSome result (λ v. v ≡ of_two e (word_in own (at own image.now) d b) (word_in own (at own image.now) d c)) }
{
    if !code::fits::<ROW>(w, own as u16) {
        return None;
    }
    let x = words::word(image, d, b, own);
    let y = words::word(image, d, c, own);
    Some(words::combined(e, x, y))
}

// What the expression of word w gives, where the fields of the word are in their ranges. Each has one arm for its ranges and its value, so that it is told
// apart once.
#[tactic(auto, unfolding(code::specs::Op::eval))]
fn value_of(image: &[u64], d: usize, w: u64, e: Expr, own: usize) -> Option<u64>
    requires { (Inside own image.now d) × (in_row own w (expr_row e) ≡ true → ranged own e) }
    ensures fits { is_some result ≡ in_row own w (expr_row e) }
    ensures word { IfSome result (λ v. v ≡ eval (word_in own (at own image.now) d) e) }
{
    match e {
        Expr::Literal(b, c) => if code::fits::<LITERAL>(w, own as u16) {
            Some(65536 * b + c)
        } else {
            None
        },
        Expr::Sum(b, c) => of_two::<SUM>(image, d, w, e, b, c, own),
        Expr::Difference(b, c) => of_two::<DIFFERENCE>(image, d, w, e, b, c, own),
        Expr::Less(b, c) => of_two::<LESS>(image, d, w, e, b, c, own),
    }
}

// An assignment's four turns, where its first is ready.
pub fn assign(
    image: &mut [u64],
    d: usize,
    s: u8,
    own: usize,
    k: u64,
    w: u64,
    a: u64,
    e: Expr,
    held: u64,
    passes: Passes,
    left: &mut u64,
) -> Option<Walk>
    requires { Here own d s k image.old w (Op.Assign a e) × (passed passes < 65535) }
    ensures { Tried own d s k held passes image.old left.old image.new left.new result }
{
    let v = value_of(image, d, w, e, own)?;
    if k <= s as u64 + 1 {
        return None;
    }
    let target = words::operand_index(d, a, own);
    logged::stores(image, d, s, own, target, v, left);
    Some(Walk {
        turns: code::ASSIGN_TURNS,
        step: s + 1,
        turn: 0,
        passes,
        held,
    })
}
