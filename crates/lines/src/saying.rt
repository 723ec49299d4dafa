// What is printed of an answer.
ghost use Rattle.std.specs.Prelude.{◌≡◌};
ghost use Rattle.lines.specs.Answers.{answer_prints, pass_prints, turn_prints, slot_prints};

use frames::Line;
use image::Word;
use turn::Answer;
use working::Cause;
use worklog::Passing;

// Of a submit or a recovery that is made nothing is printed, else why it is refused.
pub fn answered<E: Cause + Copy>(a: Result<(), E>) -> Option<Line>
    ensures { result ≡ answer_prints E.cause_of a }
{
    match a {
        Ok(_) => None,
        Err(r) => frames::refusal(r.cause()),
    }
}

// What a release found is printed; of a jump nothing is.
fn passed(why: Passing) -> Option<Line>
    ensures { result ≡ pass_prints why }
{
    match why {
        Passing::Jump => None,
        Passing::AlreadyFree => frames::report(0),
        Passing::Others => frames::report(1),
    }
}

// A turn's store is printed with the word that now stands there.
pub fn turned(image: &[u64], a: Answer) -> Option<Line>
    ensures { result ≡ turn_prints image.now a }
{
    match a {
        Answer::Stored(at) => Some(Line {
            at,
            value: image::load(image, at),
        }),
        Answer::Passed(why) => passed(why),
        Answer::Waiting(_) | Answer::Idle => None,
        Answer::Refused(r) => frames::refusal(r.cause()),
    }
}

// The store of a slot, if it has one.
pub fn slot(s: Option<Word>) -> Option<Line>
    ensures { result ≡ slot_prints s }
{
    s.map(|w| Line {
        at: w.at,
        value: w.value,
    })
}
