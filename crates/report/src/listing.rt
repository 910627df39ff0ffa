// The listing of an image.
ghost use Rattle.std.specs.Prelude.{◌≡◌, false, true, IfOk, MatchResult, string_bytes};
ghost use Rattle.report.specs.Lines.{lines};
ghost use Rattle.report.specs.Outcomes.{graph_of, ComesTo, Says};

use crate::scope_line::scope_line;
use image::image::Image;
use image::open::open;
use model::refusal::Refusal;
use model::scope_graph::ScopeGraph;
use rules::judge::first_broken;
use std::alloc::{AllocError, Global};

// One line a scope. A graph is asked by number: a chain over the numbers is no plainer.
fn scope_lines<G: ScopeGraph>(heap: Global, graph: &G) -> Result<String, AllocError>
    ensures { IfOk result (λ t. string_bytes t ≡ lines 0 (G.ScopeGraph.graph graph.now)) }
{
    let mut text = String::new(heap);
    for scope in 0..graph.scopes() {
        if let Some(line) = scope_line(graph, scope) {
            writeln!(text, "{line}")?;
        }
    }
    Ok(text)
}

// The image of bytes that open as a graph which keeps the rules, or why they are refused.
fn accepted(bytes: &[u8]) -> Result<Image<'_>, Refusal>
    ensures { ComesTo bytes.now (graph_of result) }
{
    let image = open(bytes)?;
    match first_broken(&image) {
        None => Ok(image),
        Some(refusal) => Err(refusal),
    }
}

// What there is to say of the bytes: each scope of the image, or else why it is refused.
pub fn list_image(heap: Global, bytes: &[u8]) -> Result<Result<String, String>, AllocError>
    ensures { IfOk result (λ said. MatchResult said (λ t. Says bytes.now (string_bytes t) false) (λ t. Says bytes.now (string_bytes t) true)) }
{
    match accepted(bytes) {
        Ok(image) => {
            let text = scope_lines(heap, &image)?;
            Ok(Ok(text))
        }
        Err(refusal) => {
            let line = format!(in heap; "{refusal}\n")?;
            Ok(Err(line))
        }
    }
}
