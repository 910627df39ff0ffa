// One line of a listing: a scope with its passes and counts.
ghost use Rattle.std.specs.Prelude.{◌≡◌, Some};
ghost use Rattle.std.specs.List.{slice_get};
ghost use Rattle.model.specs.Graph.{in_scope};
ghost use Rattle.report.specs.Lines.{line_of, line_text};

use model::scope_graph::ScopeGraph;
use std::fmt;

#[derive(Clone, Copy)]
pub struct ScopeLine {
    pub scope: usize,
    pub least: u16,
    pub most: u16,
    pub nodes: usize,
    pub edges: usize,
    pub facts: usize,
}

impl fmt::Display for ScopeLine {
    ghost output = { λ l. Some (line_text l) };

    fn fmt<W: fmt::Write>(&self, f: &mut fmt::Formatter<W>) -> fmt::Result {
        let ScopeLine {
            scope,
            least,
            most,
            nodes,
            edges,
            facts,
        } = *self;
        write!(
            f,
            "scope {scope} passes {least}-{most} nodes {nodes} edges {edges} facts {facts}"
        )
    }
}

// What there is to say of a scope, where it is there.
pub fn scope_line<G: ScopeGraph>(graph: &G, scope: usize) -> Option<ScopeLine>
    ensures { result ≡ in_scope (slice_get (G.ScopeGraph.graph graph.now) scope) (λ x. Some (line_of scope x)) }
{
    let (least, most) = graph.passes(scope)?;
    let nodes = graph.nodes(scope)?;
    let edges = graph.edges(scope)?;
    let facts = graph.facts(scope)?;
    Some(ScopeLine {
        scope,
        least,
        most,
        nodes,
        edges,
        facts,
    })
}
