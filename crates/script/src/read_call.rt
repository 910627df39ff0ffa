// A line read as a call.
ghost use Rattle.std.specs.Prelude.{◌≡◌, IfSome, IfOk};
ghost use Rattle.session.specs.Text.{call_text};

use crate::parse::parse;
use session::call::Call;
use std::alloc::{AllocError, Global};

// The call whose text the line is. What was read is written again, and taken only if that gives the line.
pub fn read_call(heap: Global, line: &str) -> Result<Option<Call>, AllocError>
    ensures { IfOk result (λ o. IfSome o (λ c. line.now ≡ call_text c)) }
{
    let Some(call) = parse(line) else {
        return Ok(None);
    };
    let text = format!(in heap; "{call}")?;
    if text.as_str() == line {
        Ok(Some(call))
    } else {
        Ok(None)
    }
}
