// What is said of an image, as text.
ghost use Rattle.std.specs.Prelude.{false, true, IfOk, MatchResult, string_bytes};
ghost use Rattle.bound_report.specs.Text.{Says};

use crate::bound_image::bound_image;
use std::alloc::{AllocError, Global};

// What there is to say of the bytes: the bounds and the passes of each scope, or else why they are refused.
pub fn report_image(heap: Global, bytes: &[u8]) -> Result<Result<String, String>, AllocError>
    ensures { IfOk result (λ said. MatchResult said (λ t. Says bytes.now (string_bytes t) false) (λ t. Says bytes.now (string_bytes t) true)) }
{
    match bound_image(heap, bytes)? {
        Ok(bounds) => {
            let text = format!(in heap; "{bounds}")?;
            Ok(Ok(text))
        }
        Err(refusal) => {
            let line = format!(in heap; "{refusal}\n")?;
            Ok(Err(line))
        }
    }
}
