// What a section needs from a step on, before its path is known: over both ways of each jump the fewest turns, and the most. Worked out from the
// end, so that each step is looked at once: a jump's target is looked up there.
ghost use Rattle.std.specs.Prelude.{◌≡◌, length};
ghost use Rattle.section.specs.Check.{code_of};
ghost use Rattle.needs.specs.From.{span, needs_of};
ghost use Rattle.needs.specs.Inner.Pass.{other_step, Passable};

use crate::Span;
use code::Op;
use section::Fault;

// The step that an instruction may lead to besides the next: a jump's target. Of the others it is the next.
fn other_step(x: Op, next: usize) -> usize
    ensures { result ≡ other_step next x }
{
    match x {
        Op::Jump(_, b) => b as usize,
        _ => next,
    }
}

// What the steps from one on need. Behind the last step there is nothing: the finish needs no case.
pub(crate) fn span_from(words: &[u64], from: usize) -> Span
    requires { Passable words.now from }
    ensures { result ≡ span (length words.now) (code_of words.now) from }
{
    let mut spans = [Span::NONE; 65];
    for i in (from..words.len()).rev() {
        let w = words[i];
        let turns = code::turns(w);
        let next = spans[i + 1];
        let other = spans[other_step(code::op_of(w), i + 1)];
        spans[i] = Span {
            fewest: turns + next.fewest.min(other.fewest),
            most: turns + next.most.max(other.most),
        };
    }
    spans[from]
}

// The fewest turns and the most from a step of a section on; refused as by the check, or with cause 5 where there is no such step.
pub fn from(words: &[u64], step: usize, own: u16) -> Result<Span, Fault>
    ensures { result ≡ needs_of own (length words.now) (code_of words.now) step }
{
    section::check(words, own)?;
    if words.len() <= step {
        return Err(Fault::Malformed(step));
    }
    Ok(span_from(words, step))
}
