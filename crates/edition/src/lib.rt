// The edition of images that is served: the mark in word 0 is 1, and a record has eight own words. Both stand here and nowhere else. Its
// entry points take any image, any working record and any number of stores left, and refuse with document 01's numbers; what they do is in the
// crates below, which take the edition as it is given.
#![tactic(auto)]

ghost use Rattle.std.specs.Prelude.{◌≡◌, ℕ, length, get_or};
ghost use Rattle.section.specs.Check.{code_of, check};
ghost use Rattle.section.specs.Sets.{sets_answer, sets_leave};
ghost use Rattle.working.specs.Cursor.{all_idle};
ghost use Rattle.working.specs.World.{world};
ghost use Rattle.formatting.specs.Format.{image_words, format_answer, format_leaves, format_left};
ghost use Rattle.intake.specs.Submit.{submit_answer, submit_leaves};
ghost use Rattle.asking.specs.Asking.{standing_of, asked_of, finished_of};
ghost use Rattle.turn.specs.Call.{answer_of, leaves, outcome};
ghost use Rattle.run.specs.Run.{counting, ran, run_of};
ghost use Rattle.run.specs.Round.{next_worker, next_outcome};
ghost use Rattle.needs.specs.Path.{along_of};
ghost use Rattle.needs.specs.From.{needs_of};
ghost use Rattle.needs.specs.Left.{left_of};
ghost use Rattle.repair.specs.Repair.{slot_at, slot_of};
ghost use Rattle.recovery.specs.Recovery.{recovery};
ghost use Rattle.recovery.specs.Recover.{answer_of as recovery_answer, cursors_of, recovery_leaves, recovery_left};
ghost use Rattle.recovery.specs.Repairs.{repair_by};
ghost use Rattle.edition.specs.Edition.{mark, own_words};

use asking::Standing;
use formatting::Cleared;
use image::{Edition, Word};
use intake::Entered;
use needs::Span;
use recovery::Restored;
use repair::Repair;
use run::Ran;
use run::round::NextTurn;
use section::Fault;
use turn::Turned;
use working::{Cursors, Refusal};

const EDITION: Edition = Edition { mark: 1, own: 8 };

// The words of the largest image, that of eight workers.
pub const LARGEST: usize = image::FRONT + 8 * (image::REST + EDITION.own);

// The words of an image of so many workers; 0 for a number that no image has.
pub fn image_words(workers: u64) -> usize
    ensures { result ≡ image_words own_words workers }
{
    formatting::image_words(workers, EDITION.own)
}

// The check of a section by itself: it passes, or the first of causes 4 to 9. It asks for no image and stores nothing.
pub fn check(words: &[u64]) -> Result<(), Fault>
    ensures { result ≡ check own_words (length words.now) (code_of words.now) }
{
    section::check(words, EDITION.own as u16)
}

// The pass by itself: refused with cause 4, or with 5 at the lowest step; else the held set before each step, and 0 from the count up. Where it
// is refused, all words are 0.
pub fn held_sets(words: &[u64], held: &mut [u64; 64]) -> Result<(), Fault>
    ensures verdict { result ≡ sets_answer own_words (length words.now) (code_of words.now) }
    ensures sets { (j : ℕ) → get_or held.new j 0
        ≡ sets_leave own_words (length words.now) (code_of words.now) j }
{
    section::held_sets(words, EDITION.own as u16, held)
}

// The turns along the steps of a path through a section, which need not be one that the section allows; or the first of them that there is not, or
// that fails cause 5.
pub fn turns_of_path(words: &[u64], path: &[u64]) -> Result<u64, Fault>
    ensures { result ≡ along_of own_words (length words.now) (code_of words.now) path.now }
{
    needs::path::along(words, path, EDITION.own as u16)
}

// The fewest turns and the most that a section needs from a step on; or the first of causes 4 to 9, and 5 where there is no such step.
pub fn turns_from(words: &[u64], step: usize) -> Result<Span, Fault>
    ensures { result ≡ needs_of own_words (length words.now) (code_of words.now) step }
{
    needs::ahead::from(words, step, EDITION.own as u16)
}

// The fewest turns and the most that worker d's section still needs after a recovery; 0 where none is begun.
pub fn turns_left(image: &[u64], d: usize) -> Result<Span, needs::Refusal>
    ensures { result ≡ left_of mark own_words image.now d }
{
    needs::record::left(image, d, EDITION)
}

// Formats an image for so many workers. All of them are idle, also where it is refused.
pub fn format(image: &mut [u64], workers: u64, left: &mut u64) -> Cleared
    ensures answer { result.answer ≡ format_answer own_words image.old workers }
    ensures cursors { result.cursors ≡ all_idle }
    ensures image { image.new
        ≡ format_leaves mark own_words left.old image.old workers (format_answer own_words image.old workers) }
    ensures left { left.new ≡ format_left own_words left.old workers (format_answer own_words image.old workers) }
{
    formatting::format(image, workers, EDITION, left)
}

// Submits a section for worker d, with its number and its eight arguments: causes 10, 1, 2, 3, then that very check, then the stores. (Document 02: loads.)
pub fn submit(
    image: &mut [u64],
    c: Cursors,
    d: usize,
    number: u64,
    args: &[u64; 8],
    words: &[u64],
    left: &mut u64,
) -> Entered
    ensures answer { result.answer ≡ submit_answer mark own_words (world image.old c left.old) d number words.now }
    ensures after { world image.new result.cursors left.new
        ≡ submit_leaves own_words (world image.old c left.old) d number args.now words.now
        (submit_answer mark own_words (world image.old c left.old) d number words.now) }
{
    intake::submit(image, c, d, number, args, words, EDITION, left)
}

// How worker d stands to the section of this number; refused as every question about it is.
pub fn standing(image: &[u64], d: usize, number: u64) -> Result<Standing, Refusal>
    ensures { result ≡ standing_of mark own_words image.now d number }
{
    asking::standing_of(image, d, number, EDITION)
}

// Whether a question about worker d is answered, or why not: causes 10 and 1.
pub fn asked(image: &[u64], d: usize) -> Result<(), Refusal>
    ensures { result ≡ asked_of mark own_words image.now d }
{
    asking::asked(image, d, EDITION)
}

// The number of the last section that worker d finished; 0 where the question is refused.
pub fn finished(image: &[u64], d: usize) -> u64
    ensures { result ≡ finished_of mark own_words image.now d }
{
    asking::finished(image, d, EDITION)
}

// One turn of worker d.
pub fn turn(image: &mut [u64], c: Cursors, d: usize, left: &mut u64) -> Turned
    ensures answer { result.answer ≡ answer_of own_words (outcome mark own_words (world image.old c left.old) d) }
    ensures after { world image.new result.cursors left.new
        ≡ leaves own_words (world image.old c left.old) d (outcome mark own_words (world image.old c left.old) d) }
{
    turn::turn(image, c, d, EDITION, left)
}

// One turn of worker d, as `turn` makes it, for lines of turns: the library has a turn call of its own, into which the compiler can put `turn`.
pub fn line_turn(image: &mut [u64], c: Cursors, d: usize, left: &mut u64) -> Turned
    ensures answer { result.answer ≡ answer_of own_words (outcome mark own_words (world image.old c left.old) d) }
    ensures after { world image.new result.cursors left.new
        ≡ leaves own_words (world image.old c left.old) d (outcome mark own_words (world image.old c left.old) d) }
{
    run::round::only(image, c, d, EDITION, left)
}

// The next turn of a round, from worker d on.
pub fn round_turn(image: &mut [u64], c: Cursors, d: usize, left: &mut u64) -> NextTurn
    ensures worker { result.worker ≡ next_worker mark own_words (world image.old c left.old) d }
    ensures answer { result.answer ≡ answer_of own_words (next_outcome mark own_words (world image.old c left.old) d) }
    ensures after { world image.new result.cursors left.new
        ≡ leaves own_words (world image.old c left.old) result.worker
        (next_outcome mark own_words (world image.old c left.old) d) }
{
    run::round::next(image, c, d, EDITION, left)
}

// Rounds of turns until all workers are idle or the rounds are spent.
pub fn run(image: &mut [u64], c: Cursors, rounds: u16, left: &mut u64) -> Ran
    ensures { ran result.end (counting (world image.new result.cursors left.new) result.tally)
        ≡ run_of mark own_words (world image.old c left.old) rounds }
{
    run::run(image, c, rounds, EDITION, left)
}

// Recovers an image after a cut.
pub fn recover(image: &mut [u64], left: &mut u64) -> Restored
    ensures answer { result.answer ≡ recovery_answer (recovery mark own_words image.old) }
    ensures cursors { result.cursors ≡ cursors_of (recovery mark own_words image.old) }
    ensures repair { result.repair ≡ repair_by own_words image.old (recovery mark own_words image.old) }
    ensures image { image.new
        ≡ recovery_leaves own_words left.old image.old (recovery mark own_words image.old) }
    ensures left { left.new ≡ recovery_left left.old (recovery mark own_words image.old) }
{
    recovery::recover(image, EDITION, left)
}

// Slot c of a repair; empty from 592 on.
pub fn slot_at(r: Repair, c: usize) -> Option<Word>
    ensures { result ≡ slot_of own_words (slot_at r c) }
{
    repair::storing::slot_at(r, c, EDITION.own)
}
