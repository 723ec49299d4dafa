// The turns along a path through a section: the numbers of the steps that it goes through.
ghost use Rattle.std.specs.Prelude.{◌≡◌, length};
ghost use Rattle.section.specs.Check.{code_of};
ghost use Rattle.needs.specs.Path.{step_ok, along_of};

use section::Fault;

// Whether step i is one of the section, and does not fail cause 5.
#[tactic(auto, unfolding(crate::specs::Path::step_ok))]
fn step_ok(words: &[u64], i: u64, own: u16) -> bool
    ensures { result ≡ step_ok own (length words.now) (code_of words.now) i }
{
    let n = words.len();
    i < n as u64 && code::well_formed(words[i as usize], i as usize, n, own)
}

// The turns along a path, which need not be one that the section allows; or its first step that is none of the section, or fails cause 5.
pub fn along(words: &[u64], path: &[u64], own: u16) -> Result<u64, Fault>
    ensures { result ≡ along_of own (length words.now) (code_of words.now) path.now }
{
    let mut turns: u64 = 0;
    for &i in path {
        if !step_ok(words, i, own) {
            return Err(Fault::Malformed(i as usize));
        }
        turns += code::turns(words[i as usize]);
    }
    Ok(turns)
}
