// Answers of the questions, as numbers.
ghost use Rattle.std.specs.Prelude.{◌≡◌};
ghost use Rattle.zilpanud.specs.Ask.{standing_no};

use asking::Standing;
use working::Refusal;

// The number that a standing crosses as; 0 also where it is refused.
pub fn standing_no(s: Result<Standing, Refusal>) -> u64
    ensures { result ≡ standing_no s }
{
    match s {
        Ok(Standing::NotBegun) | Err(_) => 0,
        Ok(Standing::Begun) => 1,
        Ok(Standing::Finished) => 2,
    }
}
