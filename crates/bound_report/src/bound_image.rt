// The bounds of an image, or why it is refused.
ghost use Rattle.std.specs.Prelude.{◌≡◌, ◌<◌, ◌≤◌, IfOk};
ghost use Rattle.bound_report.specs.Outcomes.{passes_shown, ArePassesShown, ComesTo};

use crate::bounds::Bounds;
use crate::worked::{Worked, work_out};
use image::open::open;
use measures::cycles::Cycles;
use measures::stack::Stack;
use model::refusal::Refusal;
use model::scope_graph::ScopeGraph;
use model::trail::{Line, SECTION};
use std::alloc::{AllocError, Global};

// The passes in the section of a scope, and 0 where it has none: that is the number which the text has for it.
fn passes_of(trail: &[Line], scope: usize) -> u16
    requires { scope < 16 }
    ensures { result ≡ passes_shown trail.now scope }
{
    trail.get(SECTION * scope).map_or(0, |line| line.a)
}

// The passes in the sections of the first scopes.
fn shown_passes(heap: Global, trail: &[Line], scopes: usize) -> Result<Vec<u16>, AllocError>
    requires { scopes ≤ 16 }
    ensures { IfOk result (λ p. ArePassesShown trail.now scopes p.items) }
{
    (0..scopes)
        .map(|scope| passes_of(trail, scope))
        .collect(heap)
}

// The bounds of the image's graph in cycles and in stack, or why it is refused. Memory and refusals are two results,
// since the caller prints the one and hands on the other: one error for both would be taken apart again.
pub fn bound_image(heap: Global, bytes: &[u8]) -> Result<Result<Bounds, Refusal>, AllocError>
    ensures { IfOk result (λ x. ComesTo bytes.now x) }
{
    let image = match open(bytes) {
        Ok(image) => image,
        Err(refusal) => return Ok(Err(refusal)),
    };
    let in_cycles: Worked<Cycles> = work_out(heap, &image)?;
    let in_stack: Worked<Stack> = work_out(heap, &image)?;
    match (in_cycles.answer, in_stack.answer) {
        (Ok(cycles), Ok(stack)) => {
            let passes = shown_passes(heap, in_cycles.trail.as_slice(), image.scopes())?;
            Ok(Ok(Bounds {
                cycles,
                stack,
                passes,
            }))
        }
        (Err(refusal), _) => Ok(Err(refusal)),
        (_, Err(refusal)) => Ok(Err(refusal)),
    }
}
