// Where a day stands: a stage of `lines` whose image is the first words of a buffer. A line is begun there, the first one or another, and
// gone on with.
#![tactic(auto)]

ghost use Rattle.std.specs.Prelude.{◌≡◌, ◌≤◌, length, take};
ghost use Rattle.edition.specs.Edition.{largest};
ghost use Rattle.frames.specs.Line.{first_of};
ghost use Rattle.lines.specs.Play.{stage, go_on};
ghost use Rattle.stages.specs.Begun.{fresh, ended, format_stage, opened, line_on};
ghost use Rattle.stages.specs.Buffer.{Holds, Buffered};

use lines::{Job, Played};
use working::{Cause, Cursors};

// Where a day stands.
#[derive(Clone, Copy)]
pub struct Day {
    // The words of the image; 0 before the first line.
    pub words: usize,
    // Where the playing of a line stands; its job is `Stop` where the day is over.
    pub played: Played,
}

// An image of so many words on which no worker has a section: the next line follows.
#[tactic(auto, unfolding(crate::specs::Begun::fresh))]
fn begun(words: usize) -> Day
    ensures { result ≡ record { words = words; played = fresh } }
{
    Day {
        words,
        played: Played::new(Cursors::all_idle(), None, Job::Next),
    }
}

// The first line refused: there is no image, and the day is over.
#[tactic(auto, unfolding(crate::specs::Begun::ended))]
fn refused(cause: u64) -> Day
    ensures { result ≡ record { words = 0; played = ended cause } }
{
    Day {
        words: 0,
        played: Played::new(Cursors::all_idle(), frames::refusal(cause), Job::Stop),
    }
}

// The start of a day.
pub fn dawn() -> Day
    ensures { result ≡ record { words = 0; played = fresh } }
{
    begun(0)
}

// The image is formatted for so many workers.
fn format(image: &mut [u64], workers: u64) -> Day
    requires { largest ≤ length image.old }
    ensures stage { stage (take result.words image.new) result.played ≡ format_stage workers }
    ensures buffer { Buffered image.old image.new 0 result.words }
{
    let n = edition::image_words(workers);
    let mut left = u64::MAX;
    let c = edition::format(&mut image[..n], workers, &mut left);
    match c.answer {
        Ok(_) => begun(n),
        Err(r) => refused(r.cause()),
    }
}

// The first line.
fn first(image: &mut [u64], text: &[u8]) -> Day
    requires { largest ≤ length image.old }
    ensures stage { stage (take result.words image.new) result.played ≡ opened (first_of text.now) }
    ensures buffer { Buffered image.old image.new 0 result.words }
{
    match frames::first(text) {
        None => refused(frames::MALFORMED),
        Some(workers) => format(image, workers),
    }
}

// A line begun: the first, or another.
pub fn line(image: &mut [u64], d: Day, text: &[u8]) -> Day
    requires { Holds image.old d }
    ensures stage { stage (take result.words image.new) result.played
        ≡ line_on (stage (take d.words image.old) d.played) text.now }
    ensures buffer { Buffered image.old image.new d.words result.words }
{
    if d.words == 0 {
        return first(image, text);
    }
    let played = lines::begin(&mut image[..d.words], d.played.cursors, text);
    Day { played, ..d }
}

// The line gone on with.
pub fn on(image: &mut [u64], d: Day) -> Day
    requires { d.words ≤ length image.old }
    ensures stage { stage (take result.words image.new) result.played
        ≡ go_on (stage (take d.words image.old) d.played) }
    ensures buffer { Buffered image.old image.new d.words result.words }
{
    let played = lines::go_on(&mut image[..d.words], d.played);
    Day { played, ..d }
}
