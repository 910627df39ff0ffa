// An image opened and worked out.
ghost use Rattle.clib.specs.Images.{ImageAnalyzed};

use analysis::analyze::analyze;
use image::open::open;
use model::cost::Cost;
use model::refusal::Refusal;
use model::trail::Line;

// The bound of an image in the caller's tables, or why it is refused: by opening it, or by working out its graph.
pub fn analyze_image<C: Cost>(
    bytes: &[u8],
    work: &mut [C],
    trail: &mut [Line],
) -> Result<C, Refusal>
    ensures { ImageAnalyzed C.measure bytes.now work.old work.new trail.old trail.new result }
{
    let image = open(bytes)?;
    analyze(&image, work, trail)
}
