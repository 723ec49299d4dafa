// Instruction words: the fixed table of the kinds, the fields of an instruction word, the instruction that it says, and cause 5.
#![tactic(auto)]

ghost use Rattle.std.specs.Prelude.{◌≡◌, ℕ, ◌+◌, ◌<◌, ◌≤◌, true, cond, [], get_or, eqb};
ghost use Rattle.code.specs.Table.{table, entry, turns_of, kind_of, field_a, field_b, field_c};
ghost use Rattle.code.specs.Op.{by_kind, op_of};
ghost use Rattle.code.specs.Inner.Rows.{in_row, op_row};
ghost use Rattle.code.specs.Form.{in_range, in_place, well_formed, lock_ok, held_after};

// What an assignment stores: a literal, or a sum, a difference or a comparison of two words.
#[derive(Clone, Copy)]
pub enum Expr {
    Literal(u64, u64),
    Sum(u64, u64),
    Difference(u64, u64),
    Less(u64, u64),
}

#[derive(Clone, Copy)]
pub enum Op {
    Acquire(u64),
    Release(u64),
    Assign(u64, Expr),
    Jump(u64, u64),
    Finish,
    Unknown,
}

// For each kind the largest a, b and c, and the number of turns. 511, the highest cell, stands for a word number: the own
// words come above it.
const TABLE: [[u64; 4]; 8] = [
    [63, 0, 0, 6],
    [63, 0, 0, 6],
    [511, 65535, 65535, 4],
    [511, 511, 511, 4],
    [511, 511, 511, 4],
    [511, 511, 511, 4],
    [511, 63, 0, 1],
    [0, 0, 0, 3],
];

// The rows by what their words say; an assignment has one for each expression.
pub const ACQUIRE: usize = 0;

pub const RELEASE: usize = 1;

pub const LITERAL: usize = 2;

pub const SUM: usize = 3;

pub const DIFFERENCE: usize = 4;

pub const LESS: usize = 5;

pub const JUMP: usize = 6;

pub const FINISH: usize = 7;

// The turns of each instruction by its row, for who does not look the word up; the four rows of an assignment have as many.
pub const ACQUIRE_TURNS: u64 = TABLE[ACQUIRE][3];

pub const RELEASE_TURNS: u64 = TABLE[RELEASE][3];

pub const ASSIGN_TURNS: u64 = TABLE[LITERAL][3];

pub const JUMP_TURNS: u64 = TABLE[JUMP][3];

pub const FINISH_TURNS: u64 = TABLE[FINISH][3];

// As many as any instruction has.
pub const MOST_TURNS: u64 = ACQUIRE_TURNS;

// The row of a kind; zeros where there is none. Every index is constant, so that a look-up is a load of a constant.
#[tactic(auto, unfolding(crate::specs::Table::entry))]
fn row(kind: u64) -> [u64; 4]
    ensures { (j : ℕ) → get_or result j 0 ≡ entry kind j }
{
    match kind {
        1 => TABLE[0],
        2 => TABLE[1],
        3 => TABLE[2],
        4 => TABLE[3],
        5 => TABLE[4],
        6 => TABLE[5],
        7 => TABLE[6],
        8 => TABLE[7],
        _ => [0, 0, 0, 0],
    }
}

// The turns of an instruction word; 0 where the kind is unknown.
pub fn turns(w: u64) -> u64
    ensures { result ≡ turns_of w }
{
    row(kind_of(w))[3]
}

// The largest value of a field whose entry is e.
fn highest(e: u64, own: u16) -> u64
    ensures { result ≡ cond (eqb e 511) (511 + own) e }
{
    if e == 511 { 511 + own as u64 } else { e }
}

fn kind_of(w: u64) -> u64
    ensures { result ≡ kind_of w }
{
    w >> 48
}

fn field_a(w: u64) -> u64
    ensures { result ≡ field_a w }
{
    (w >> 32) % 65536
}

fn field_b(w: u64) -> u64
    ensures { result ≡ field_b w }
{
    (w >> 16) % 65536
}

fn field_c(w: u64) -> u64
    ensures { result ≡ field_c w }
{
    w % 65536
}

// The instruction of a kind with these fields.
fn by_kind(k: u64, a: u64, b: u64, c: u64) -> Op
    ensures { result ≡ by_kind k a b c }
{
    match k {
        1 => Op::Acquire(a),
        2 => Op::Release(a),
        3 => Op::Assign(a, Expr::Literal(b, c)),
        4 => Op::Assign(a, Expr::Sum(b, c)),
        5 => Op::Assign(a, Expr::Difference(b, c)),
        6 => Op::Assign(a, Expr::Less(b, c)),
        7 => Op::Jump(a, b),
        8 => Op::Finish,
        _ => Op::Unknown,
    }
}

// The instruction that a word says.
#[tactic(auto, unfolding(crate::specs::Op::op_of))]
pub fn op_of(w: u64) -> Op
    ensures { result ≡ op_of w }
{
    by_kind(kind_of(w), field_a(w), field_b(w), field_c(w))
}

// Whether each field of a word is in its range, by the row of its kind. (As a chain of `&&` it took `well_formed` 45 instructions a word for 32.)
fn in_row(w: u64, r: [u64; 4], own: u16) -> bool
    ensures { result ≡ in_row own w r }
{
    if highest(r[0], own) < field_a(w) {
        return false;
    }
    if highest(r[1], own) < field_b(w) {
        return false;
    }
    field_c(w) <= highest(r[2], own)
}

// Whether the kind is known and each field in its range.
fn in_range(w: u64, own: u16) -> bool
    ensures { result ≡ in_range own w }
{
    let k = kind_of(w);
    (1..=8).contains(&k) && in_row(w, row(k), own)
}

// Whether step i of n is a position that the instruction of a word of a known kind may have.
fn in_place(w: u64, i: usize, n: usize) -> bool
    requires { (1 ≤ kind_of w) × (kind_of w ≤ 8) × (i < n) }
    ensures { result ≡ in_place n i (op_of w) }
{
    let k = kind_of(w);
    if k < 7 {
        return i + 1 < n;
    }
    if k == 8 {
        return i + 1 == n;
    }
    let b = field_b(w);
    (i as u64) < b && b < n as u64
}

// Whether step i of n does not fail cause 5.
pub fn well_formed(w: u64, i: usize, n: usize, own: u16) -> bool
    requires { i < n }
    ensures { result ≡ well_formed own n i w }
{
    in_range(w, own) && in_place(w, i, n)
}

// Whether each field of a word is in its range by one row of the table, so that no entry is looked up.
pub fn fits<const ROW: usize>(w: u64, own: u16) -> bool
    requires { ROW < 8 }
    ensures { result ≡ in_row own w (get_or table ROW []) }
{
    in_row(w, TABLE[ROW], own)
}

// The same by the instruction that the word says.
fn op_in_row(w: u64, x: Op, own: u16) -> bool
    ensures { result ≡ in_row own w (op_row x) }
{
    match x {
        Op::Acquire(_) => fits::<ACQUIRE>(w, own),
        Op::Release(_) => fits::<RELEASE>(w, own),
        Op::Assign(_, Expr::Literal(_, _)) => fits::<LITERAL>(w, own),
        Op::Assign(_, Expr::Sum(_, _)) => fits::<SUM>(w, own),
        Op::Assign(_, Expr::Difference(_, _)) => fits::<DIFFERENCE>(w, own),
        Op::Assign(_, Expr::Less(_, _)) => fits::<LESS>(w, own),
        Op::Jump(_, _) => fits::<JUMP>(w, own),
        Op::Finish => fits::<FINISH>(w, own),
        Op::Unknown => in_row(w, [0, 0, 0, 0], own),
    }
}

// Whether step i of n is a position that the instruction may have.
fn op_in_place(x: Op, i: usize, n: usize) -> bool
    requires { i < n }
    ensures { result ≡ in_place n i x }
{
    match x {
        Op::Acquire(_) | Op::Release(_) | Op::Assign(_, _) => i + 1 < n,
        Op::Jump(_, b) => (i as u64) < b && b < n as u64,
        Op::Finish => i + 1 == n,
        Op::Unknown => false,
    }
}

// The same as `well_formed`, for a caller that goes by the instruction: each has its row as a constant, and nothing is looked up (docs/DECISIONS.md).
pub fn formed(w: u64, x: Op, i: usize, n: usize, own: u16) -> bool
    requires { (x ≡ op_of w) × (i < n) }
    ensures { result ≡ well_formed own n i w }
{
    op_in_row(w, x, own) && op_in_place(x, i, n)
}

// The held set after an instruction whose lock, if it has one, is in its range.
#[tactic(auto, unfolding(crate::specs::Form::held_after))]
pub fn held_after(h: u64, x: Op) -> u64
    requires { lock_ok x ≡ true }
    ensures { result ≡ held_after h x }
{
    match x {
        Op::Acquire(a) => mask::with(h, a),
        Op::Release(a) => mask::without(h, a),
        _ => h,
    }
}

// The same after the instruction of a word. Kinds above 2 leave it.
pub fn held_past(h: u64, w: u64) -> u64
    requires { lock_ok (op_of w) ≡ true }
    ensures { result ≡ held_after h (op_of w) }
{
    if 2 < kind_of(w) {
        h
    } else {
        held_after(h, op_of(w))
    }
}
