// What C and Rust link: the engine's entry points, four questions about a worker, the turns that a section needs, the count of the locks held and the sums of
// a day, over slices, arrays and numbers. An answer crosses as a number and a detail (`working::code` and `working::detail`, `codes` of turn and run): 0, a
// cause, which is below 32, or another answer of a turn or a run, which is not (proofs/Apart.antt). The working record crosses
// as two arrays, a step and a turn for each worker, and the mask of the locks held.
#![tactic(auto)]

use needs::Span;

mod answers;
mod cursors;

ghost use Rattle.std.specs.Prelude.{◌≡◌, ℕ, get_or};
ghost use Rattle.std.specs.Int.Count.{ones};
ghost use Rattle.section.specs.Check.{cause_of, step_of};
ghost use Rattle.working.specs.Cursor.{cursors};
ghost use Rattle.formatting.specs.Codes.{format_code};
ghost use Rattle.intake.specs.Codes.{submit_code, submit_detail};
ghost use Rattle.turn.specs.Codes.{turn_code, turn_detail};
ghost use Rattle.run.specs.Codes.{end_code, end_detail};
ghost use Rattle.soundness.specs.Codes.{recover_code, recover_detail};
ghost use Rattle.needs.specs.Codes.{along_code, along_step, along_turns, needed_code, needed_step, needed_fewest, needed_most};
ghost use Rattle.needs.specs.Codes.{left_code, left_fewest, left_most};
ghost use Rattle.zilpanud.specs.Lent.{lent, formatting, formats_to, checking, giving, gives_to, following, needing, submitting, submits_to};
ghost use Rattle.zilpanud.specs.Lent.{turning, turns_to, running, counts, recovering, recovers_to};
ghost use Rattle.zilpanud.specs.Ask.{ask_code, told, idle_bit, finished_no, stands, still_needing};
ghost use Rattle.sums.specs.Sums.{sums};
ghost use Rattle.sums.specs.Day.{day_reading, day_sums};
ghost use Rattle.zilpanud.specs.Version.{version};

// Formats an image for so many workers: 0, or 10. All workers are idle and no lock is held, also where it is refused.
#[tactic(auto, using(crate::proofs::Crossing::format_coded))]
#[unsafe(no_mangle)]
pub extern "C" fn zilpanud_format(
    image: &mut [u64],
    workers: u64,
    step: &mut [u8; 8],
    turn: &mut [u8; 8],
    held: &mut u64,
    left: &mut u64,
) -> u64
    ensures code { result ≡ format_code (formatting image.old workers) }
    ensures after { lent image.new step.new turn.new held.new left.new
        ≡ formats_to image.old workers left.old }
{
    let r = edition::format(image, workers, left);
    cursors::leave(r.cursors, step, turn, held);
    working::code(r.answer)
}

// The check of a section alone, without an image: 0, or 4 to 9, with the step.
#[tactic(auto, using(crate::proofs::Crossing::checked))]
#[unsafe(no_mangle)]
pub extern "C" fn zilpanud_check(words: &[u64], detail: &mut u64) -> u64
    ensures code { result ≡ cause_of (checking words.now) }
    ensures detail { detail.new ≡ step_of (checking words.now) }
{
    let v = edition::check(words);
    *detail = working::detail(v);
    working::code(v)
}

// The held set before each step of a section: 0, or 4, or 5 with the lowest step. Causes 6 to 9 are not asked. The words lent are 0 from the
// count up, and where it is refused all of them.
#[tactic(auto, using(crate::proofs::Crossing::checked))]
#[unsafe(no_mangle)]
pub extern "C" fn zilpanud_held_sets(words: &[u64], sets: &mut [u64; 64], detail: &mut u64) -> u64
    ensures code { result ≡ cause_of (giving words.now) }
    ensures detail { detail.new ≡ step_of (giving words.now) }
    ensures sets { (j : ℕ) → get_or sets.new j 0 ≡ gives_to words.now j }
{
    let v = edition::held_sets(words, sets);
    *detail = working::detail(v);
    working::code(v)
}

// The turns along the steps of a path through a section, which need not be one that it allows: 0, or 5 with the first step that there is not, or
// that fails it. Where it is refused, the turns are 0.
#[tactic(auto, using(crate::proofs::Crossing::followed))]
#[unsafe(no_mangle)]
pub extern "C" fn zilpanud_turns_of_path(
    words: &[u64],
    path: &[u64],
    turns: &mut u64,
    detail: &mut u64,
) -> u64
    ensures code { result ≡ along_code (following words.now path.now) }
    ensures turns { turns.new ≡ along_turns (following words.now path.now) }
    ensures detail { detail.new ≡ along_step (following words.now path.now) }
{
    let a = edition::turns_of_path(words, path);
    *turns = a.unwrap_or(0);
    *detail = working::detail(a);
    working::code(a)
}

// The fewest turns and the most that a section needs from a step on: 0, or 4 to 9, with the step; 5 where there is no such step. Where it is
// refused, both are 0.
#[tactic(auto, using(crate::proofs::Crossing::needed))]
#[unsafe(no_mangle)]
pub extern "C" fn zilpanud_turns_from(
    words: &[u64],
    step: u64,
    fewest: &mut u64,
    most: &mut u64,
    detail: &mut u64,
) -> u64
    ensures code { result ≡ needed_code (needing words.now step) }
    ensures fewest { fewest.new ≡ needed_fewest (needing words.now step) }
    ensures most { most.new ≡ needed_most (needing words.now step) }
    ensures detail { detail.new ≡ needed_step (needing words.now step) }
{
    let a = edition::turns_from(words, step as usize);
    let s = a.unwrap_or(Span::NONE);
    *fewest = s.fewest;
    *most = s.most;
    *detail = working::detail(a);
    working::code(a)
}

// Submits a section for a worker: 0, or 10, 1, 2, 3, and then 4 to 9 by that very check, with the step. Where it is refused, nothing is stored.
#[tactic(auto, using(crate::proofs::Crossing::submitted))]
#[unsafe(no_mangle)]
pub extern "C" fn zilpanud_submit(
    image: &mut [u64],
    step: &mut [u8; 8],
    turn: &mut [u8; 8],
    held: &mut u64,
    worker: usize,
    number: u64,
    args: &[u64; 8],
    words: &[u64],
    left: &mut u64,
    detail: &mut u64,
) -> u64
    ensures code { result
        ≡ submit_code
        (submitting (lent image.old step.old turn.old held.old left.old) worker
        number words.now) }
    ensures detail { detail.new
        ≡ submit_detail
        (submitting (lent image.old step.old turn.old held.old left.old) worker
        number words.now) }
    ensures after { lent image.new step.new turn.new held.new left.new
        ≡ submits_to (lent image.old step.old turn.old held.old left.old) worker number
        args.now words.now }
{
    let c = cursors::lent(step, turn, *held);
    let r = edition::submit(image, c, worker, number, args, words, left);
    cursors::leave(r.cursors, step, turn, held);
    *detail = working::detail(r.answer);
    working::code(r.answer)
}

// One turn of a worker: 32 stored, with the index, 33 passed, with why, 34 waiting, with the lock, 35 idle; or 10, 1, 11 with the worker.
#[unsafe(no_mangle)]
pub extern "C" fn zilpanud_turn(
    image: &mut [u64],
    step: &mut [u8; 8],
    turn: &mut [u8; 8],
    held: &mut u64,
    worker: usize,
    left: &mut u64,
    detail: &mut u64,
) -> u64
    ensures code { result
        ≡ turn_code (turning (lent image.old step.old turn.old held.old left.old) worker) }
    ensures detail { detail.new
        ≡ turn_detail (turning (lent image.old step.old turn.old held.old left.old) worker) }
    ensures after { lent image.new step.new turn.new held.new left.new
        ≡ turns_to (lent image.old step.old turn.old held.old left.old) worker }
{
    let c = cursors::lent(step, turn, *held);
    let r = edition::turn(image, c, worker, left);
    cursors::leave(r.cursors, step, turn, held);
    *detail = turn::codes::turn_detail(r.answer);
    turn::codes::turn_code(r.answer)
}

// Rounds of turns until all workers are idle: 0, 36 spent; or 10, 11 with the worker. The tally: turns, waits, stores, and the
// releases that found their lock already free, and another's.
#[unsafe(no_mangle)]
pub extern "C" fn zilpanud_run(
    image: &mut [u64],
    step: &mut [u8; 8],
    turn: &mut [u8; 8],
    held: &mut u64,
    rounds: u16,
    tally: &mut [u64; 5],
    left: &mut u64,
    detail: &mut u64,
) -> u64
    ensures code { result
        ≡ end_code (running (lent image.old step.old turn.old held.old left.old) rounds).end }
    ensures detail { detail.new
        ≡ end_detail (running (lent image.old step.old turn.old held.old left.old) rounds).end }
    ensures after { lent image.new step.new turn.new held.new left.new
        ≡ (running (lent image.old step.old turn.old held.old left.old) rounds).after.world }
    ensures tally { tally.new
        ≡ counts
        (running (lent image.old step.old turn.old held.old left.old) rounds).after.tally }
{
    let c = cursors::lent(step, turn, *held);
    let r = edition::run(image, c, rounds, left);
    cursors::leave(r.cursors, step, turn, held);
    let n = r.tally;
    *tally = [n.turns, n.waits, n.stores, n.free, n.others];
    *detail = run::codes::end_detail(r.end);
    run::codes::end_code(r.end)
}

// Recovers an image after a cut: 0, or 10, 12 with the worker, 13 with the lock. Arrays and mask are lent for the new record alone.
#[tactic(auto, using(crate::proofs::Crossing::recovered))]
#[unsafe(no_mangle)]
pub extern "C" fn zilpanud_recover(
    image: &mut [u64],
    step: &mut [u8; 8],
    turn: &mut [u8; 8],
    held: &mut u64,
    left: &mut u64,
    detail: &mut u64,
) -> u64
    ensures code { result ≡ recover_code (recovering image.old) }
    ensures detail { detail.new ≡ recover_detail (recovering image.old) }
    ensures after { lent image.new step.new turn.new held.new left.new
        ≡ recovers_to image.old left.old }
{
    let r = edition::recover(image, left);
    cursors::leave(r.cursors, step, turn, held);
    *detail = working::detail(r.answer);
    working::code(r.answer)
}

// Whether a worker is idle, 1 or 0, by its cursor, whatever locks are held. It returns 0, or 10, 1, as all questions do, and answers 0 where
// it is refused.
#[tactic(auto, using(asking::proofs::Asking::asked_code, crate::proofs::Asked::told_by), unfolding(crate::specs::Ask::idle_bit))]
#[unsafe(no_mangle)]
pub extern "C" fn zilpanud_is_idle(
    image: &[u64],
    step: &[u8; 8],
    turn: &[u8; 8],
    worker: usize,
    answer: &mut u64,
) -> u64
    ensures code { result ≡ ask_code image.now worker }
    ensures answer { answer.new
        ≡ told image.now worker (idle_bit (cursors step.now turn.now 0) worker) }
{
    let a = edition::asked(image, worker);
    let idle = a.is_ok() && cursors::lent(step, turn, 0).idle(worker);
    *answer = idle as u64;
    working::code(a)
}

// How many locks are held, by the mask that a call has left.
#[unsafe(no_mangle)]
pub extern "C" fn zilpanud_locks_held(held: u64) -> u64
    ensures { result ≡ ones held }
{
    mask::count(held) as u64
}

// The number of the last section that a worker finished.
#[tactic(auto, using(asking::proofs::Asking::asked_code))]
#[unsafe(no_mangle)]
pub extern "C" fn zilpanud_finished(image: &[u64], worker: usize, number: &mut u64) -> u64
    ensures code { result ≡ ask_code image.now worker }
    ensures answer { number.new ≡ finished_no image.now worker }
{
    *number = edition::finished(image, worker);
    working::code(edition::asked(image, worker))
}

// How a worker stands to the section of a number: 0 not begun, 1 begun, 2 finished.
#[tactic(auto, using(asking::proofs::Asking::standing_code, crate::proofs::Asked::stands_told))]
#[unsafe(no_mangle)]
pub extern "C" fn zilpanud_standing(
    image: &[u64],
    worker: usize,
    number: u64,
    answer: &mut u64,
) -> u64
    ensures code { result ≡ ask_code image.now worker }
    ensures answer { answer.new ≡ told image.now worker (stands image.now worker number) }
{
    let s = edition::standing(image, worker, number);
    *answer = answers::standing_no(s);
    working::code(s)
}

// The fewest turns and the most that a worker's section still needs after a recovery: 0, or 10, 1, and 12 where its record is not sound. Both are 0
// where none is begun, and where it is refused.
#[tactic(auto, using(crate::proofs::Crossing::left))]
#[unsafe(no_mangle)]
pub extern "C" fn zilpanud_turns_left(
    image: &[u64],
    worker: usize,
    fewest: &mut u64,
    most: &mut u64,
) -> u64
    ensures code { result ≡ left_code (still_needing image.now worker) }
    ensures fewest { fewest.new ≡ left_fewest (still_needing image.now worker) }
    ensures most { most.new ≡ left_most (still_needing image.now worker) }
{
    let a = edition::turns_left(image, worker);
    let s = a.unwrap_or(Span::NONE);
    *fewest = s.fewest;
    *most = s.most;
    working::code(a)
}

// The sums of a recorded day, a whole one in memory, for any bytes: for each lock the turns that waited on it, for each worker its turns that waited and those
// that did not. Where reading ends early, those up to there: 14, a malformed line; 10, no image has as many workers as the first line says; else 0. The detail:
// the lines read, the one that ended it included.
#[unsafe(no_mangle)]
pub extern "C" fn zilpanud_day_sums(
    bytes: &[u8],
    locks: &mut [u64; 64],
    waited: &mut [u64; 8],
    moved: &mut [u64; 8],
    detail: &mut u64,
) -> u64
    ensures code { result ≡ (day_reading bytes.now).ends }
    ensures sums { sums locks.new waited.new moved.new ≡ day_sums bytes.now }
    ensures detail { detail.new ≡ (day_reading bytes.now).read }
{
    let r = sums::day_sums(bytes, locks, waited, moved);
    *detail = r.lines;
    r.ends
}

// Which library this is: 1,000,000 × its major version, 1,000 × its minor one, and its patch.
#[unsafe(no_mangle)]
pub extern "C" fn zilpanud_version() -> u64
    ensures { result ≡ version }
{
    9_000
}
