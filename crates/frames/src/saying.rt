// What is printed, and its printed form.
ghost use Rattle.std.specs.Prelude.{◌≡◌};
ghost use Rattle.frames.specs.Print.{text_of, refusal, report};

use crate::{Line, digits};

// A refusal has ffff for the index, and its number.
pub fn refusal(cause: u64) -> Option<Line>
    ensures { result ≡ refusal cause }
{
    Some(Line {
        at: 65535,
        value: cause,
    })
}

// A report has fffe, and what was found.
pub fn report(found: u64) -> Option<Line>
    ensures { result ≡ report found }
{
    Some(Line {
        at: 65534,
        value: found,
    })
}

// The bytes stand one by one, as they do on the page: those of 22 calls by from_fn are more facts than one search looks into.
pub fn text(at: usize, value: u64) -> [u8; 22]
    ensures { result ≡ text_of at value }
{
    let i = at as u64;
    [
        digits::digit_at(i, 3),
        digits::digit_at(i, 2),
        digits::digit_at(i, 1),
        digits::digit_at(i, 0),
        b' ',
        digits::digit_at(value, 15),
        digits::digit_at(value, 14),
        digits::digit_at(value, 13),
        digits::digit_at(value, 12),
        digits::digit_at(value, 11),
        digits::digit_at(value, 10),
        digits::digit_at(value, 9),
        digits::digit_at(value, 8),
        digits::digit_at(value, 7),
        digits::digit_at(value, 6),
        digits::digit_at(value, 5),
        digits::digit_at(value, 4),
        digits::digit_at(value, 3),
        digits::digit_at(value, 2),
        digits::digit_at(value, 1),
        digits::digit_at(value, 0),
        10,
    ]
}
