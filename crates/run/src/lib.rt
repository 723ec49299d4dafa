// Runs: rounds of turns over the workers, counted in a tally.
#![tactic(auto)]

use image::Edition;
use tally::Tally;
use working::{Cursors, Refusal};

mod alone;
pub mod codes;
pub mod round;

ghost use Rattle.std.specs.Prelude.{◌≡◌, ◌+◌, ◌-◌, ◌<◌, ◌≤◌, cond, eqb, length};
ghost use Rattle.image.specs.Image.{workers, length_of};
ghost use Rattle.tally.specs.Tally.{none};
ghost use Rattle.working.specs.World.{world};
ghost use Rattle.run.specs.Run.{counting, open_to, ran, rounds_of, run_of};

// How a run ends.
#[derive(Clone, Copy)]
pub enum End {
    AllIdle,
    Spent,
    Halted(Refusal),
}

#[derive(Clone, Copy)]
pub struct Ran {
    pub end: End,
    pub cursors: Cursors,
    pub tally: Tally,
}

// The workers up to the last open one, of n, by their turns.
fn open_to(turn: [u8; 8], n: usize) -> usize
    requires { n ≤ 8 }
    ensures { (c : Cursors) → c.turn ≡ turn → result ≡ open_to n c }
{
    for k in (0..n).rev() {
        if turn[k] != 255 {
            return k + 1;
        }
    }
    0
}

// The same below the last of so many: 0 where that one alone is open.
fn open_below(turn: [u8; 8], to: usize) -> usize
    requires { to ≤ 8 }
    ensures { (c : Cursors) → c.turn ≡ turn → result ≡ open_to (to - 1) c }
{
    open_to(turn, to.saturating_sub(1))
}

// The same for the workers up to d, by the turn at which d is now and the number for those below it.
fn open_with(t: u8, d: usize, below: usize) -> usize
    requires { d < 8 }
    ensures { result ≡ cond (eqb t 255) below (d + 1) }
{
    if t == 255 { below } else { d + 1 }
}

// Rounds over n workers until all are idle, the rounds are spent, or a turn is refused. Idle workers have no turn, and
// those above the last open one are not looked at. Where one worker alone is open, its turn is as many turns as fit in the rounds left. That is asked at the
// start, and behind a round in which a worker came to its end. (Asked by a count of the idle workers of each round, it cost runs of several workers a tenth of
// their time.) Such a worker's numbers are those of an idle one before its turns: a processor waits for a byte that it has just stored, where the array is
// loaded whole.
fn rounds_of(
    image: &mut [u64],
    cursors: Cursors,
    n: usize,
    own: usize,
    rounds: u16,
    left: &mut u64,
) -> Ran
    requires { (own ≤ 64) × (n ≡ workers image.old) × (n ≤ 8) × (length image.old ≡ length_of own n) }
    ensures { ran result.end (counting (world image.new result.cursors left.new) result.tally)
        ≡ rounds_of own rounds n (counting (world image.old cursors left.old) none) }
{
    let mut c = cursors;
    let mut held = cursors.held;
    let mut tally = tally::zero();
    let mut round: u16 = 0;
    let turn = cursors.turn;
    let mut to = open_to(turn, n);
    let mut below = open_below(turn, to);
    let mut ended = false;
    let end = 'rounds: loop {
        if to == 0 {
            break End::AllIdle;
        }
        if round == rounds {
            break End::Spent;
        }
        let mut next: usize = 0;
        for d in 0..to {
            let s = c.step[d];
            let t = c.turn[d];
            if t == 255 {
                continue;
            }
            if below == 0 {
                c.step[d] = 0;
                c.turn[d] = 255;
                let w = alone::turns(image, d, s, t, own, rounds - round, held, tally, left);
                alone::settle(&mut c, d, w.step, w.turn);
                if w.turns == 0 {
                    break 'rounds End::Halted(Refusal::Cursor(d));
                }
                held = w.held;
                tally = w.tally;
                to = open_with(w.turn, d, 0);
                round += w.turns;
                continue 'rounds;
            }
            let Some(acted) = round::lap(image, d, s, t, own, round, left) else {
                break 'rounds End::Halted(Refusal::Cursor(d));
            };
            c.step[d] = acted.step;
            c.turn[d] = acted.turn;
            held = turn::held_after(acted.did, held);
            tally = turn::counted(acted.did, tally);
            next = open_with(c.turn[d], d, next);
            ended = ended || acted.turn == 255;
        }
        if ended {
            let turn = c.turn;
            below = open_below(turn, next);
            ended = false;
        }
        to = next;
        round += 1;
    };
    c.held = held;
    Ran {
        end,
        cursors: c,
        tally,
    }
}

// Rounds of turns until all workers are idle. The header is tested once.
pub fn run(image: &mut [u64], c: Cursors, rounds: u16, e: Edition, left: &mut u64) -> Ran
    ensures { ran result.end (counting (world image.new result.cursors left.new) result.tally)
        ≡ run_of e.mark e.own (world image.old c left.old) rounds }
{
    if !image::header_ok(image, e) {
        return Ran {
            end: End::Halted(Refusal::Image),
            cursors: c,
            tally: tally::zero(),
        };
    }
    let n = image::workers(image) as usize;
    rounds_of(image, c, n, e.own, rounds, left)
}
