// The calls that C programs make. Each gives 0 and writes the bound, or gives the number of a refusal and leaves the
// place of the bound as it is. C has no results and no generics: so the answer is a number, and there is a call for each
// measure. The tables are as the analysis leaves them, and untouched where opening refuses.
ghost use Rattle.std.specs.Prelude.{◌≡◌, Result};
ghost use Rattle.measures.specs.Meanings.{cycles, stack};
ghost use Rattle.measures.specs.declared.cycles.Cycles.{Cycles};
ghost use Rattle.measures.specs.declared.stack.Stack.{Stack};
ghost use Rattle.model.specs.declared.refusal.Refusal.{Refusal};
ghost use Rattle.clib.specs.Images.{ImageAnalyzed, status, written};

use crate::analyze_image::analyze_image;
use measures::cycles::Cycles;
use measures::stack::Stack;
use model::trail::Line;

#[unsafe(no_mangle)]
pub extern "C" fn naglveth_cycles(
    image: &[u8],
    work: &mut [Cycles],
    trail: &mut [Line],
    bound: &mut u64,
) -> u8
    ensures { (o : Result Cycles Refusal) × ImageAnalyzed cycles image.now work.old work.new trail.old trail.new o × (result ≡ status o) × (bound.new ≡ written (λ c. c.count) o bound.old) }
{
    match analyze_image::<Cycles>(image, work, trail) {
        Ok(cost) => {
            *bound = cost.count;
            0
        }
        Err(refusal) => refusal.number(),
    }
}

#[unsafe(no_mangle)]
pub extern "C" fn naglveth_stack(
    image: &[u8],
    work: &mut [Stack],
    trail: &mut [Line],
    bound: &mut u16,
) -> u8
    ensures { (o : Result Stack Refusal) × ImageAnalyzed stack image.now work.old work.new trail.old trail.new o × (result ≡ status o) × (bound.new ≡ written (λ c. c.bytes) o bound.old) }
{
    match analyze_image::<Stack>(image, work, trail) {
        Ok(cost) => {
            *bound = cost.bytes;
            0
        }
        Err(refusal) => refusal.number(),
    }
}
