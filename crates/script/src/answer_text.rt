// The answers to a list of calls, as text.
ghost use Rattle.std.specs.Prelude.{◌≡◌, ◌++◌, IfOk, OnOk, string_bytes};
ghost use Rattle.script.specs.Text.{answer_text_lem, answers_text};

use crate::cost_text::CostText;
use session::call::Answer;
use std::alloc::{AllocError, Global};

// The line of one answer, behind what is there.
fn push_line<C: CostText>(text: &mut String, answer: &Answer<C>) -> Result<(), AllocError>
    ensures { OnOk result (string_bytes text.new ≡ string_bytes text.old ++ answer_text_lem C.said answer.now) }
{
    match answer {
        Ok(reply) => writeln!(text, "{reply}"),
        Err(refusal) => writeln!(text, "{refusal}"),
    }
}

// One line for each answer.
#[tactic(auto, using(crate::proofs::Lines::line_more))]
pub fn answer_lines<C: CostText>(heap: Global, answers: &[Answer<C>]) -> Result<String, AllocError>
    ensures { IfOk result (λ t. string_bytes t ≡ answers_text C.said answers.now) }
{
    let mut text = String::new(heap);
    for answer in answers {
        push_line(&mut text, answer)?;
    }
    Ok(text)
}
