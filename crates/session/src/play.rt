// A list of calls, one after the other.
ghost use Rattle.std.specs.Prelude.{◌≡◌, MatchResult};
ghost use Rattle.session.specs.Sequences.{Played};

use crate::answering::answer_to;
use crate::call::{Answer, Call};
use model::cost::Cost;
use model::trail::Line;
use std::alloc::{AllocError, Global};
use workbook::book::Workbook;

// The answers to the calls, on a workbook straight from its making. Where there is no memory for that, nothing is done.
#[tactic(auto, using(crate::proofs::Sequences::sequence_next, crate::proofs::Sequences::all_played))]
pub fn play<C: Cost>(
    heap: Global,
    calls: &[Call],
    work: &mut [C],
    trail: &mut [Line],
) -> Result<Vec<Answer<C>>, AllocError>
    ensures { MatchResult result (λ v. Played C.measure calls.now v.items work.old trail.old work.new trail.new) (λ _. (work.new ≡ work.old) × (trail.new ≡ trail.old)) }
{
    let mut book = Workbook::new(heap)?;
    let mut answers = Vec::with_capacity(heap, calls.len())?;
    for call in calls {
        let answer = answer_to(&mut book, *call, work, trail);
        answers.push_reserved(answer);
    }
    Ok(answers)
}
