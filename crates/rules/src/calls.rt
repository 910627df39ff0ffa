// Which scopes a scope calls.
ghost use Rattle.std.specs.Prelude.{◌≡◌, ℕ, ◌<◌, ◌≤◌, false, [], length, MatchBool, slice_index_or};
ghost use Rattle.model.specs.Graph.{node_at};
ghost use Rattle.rules.specs.CallOrders.{callee_of, Row, Ready, Blocked};

use crate::limits::SCOPES;
use model::graph::Node;
use model::scope_graph::ScopeGraph;
use std::array;

// The scope that a node calls, if any.
fn callee<G: ScopeGraph>(graph: &G, scope: usize, n: usize) -> Option<usize>
    ensures { result ≡ callee_of (node_at (G.ScopeGraph.graph graph.now) scope n) }
{
    match graph.node(scope, n) {
        Some(Node::Call { scope: callee }) => Some(usize::from(callee)),
        _ => None,
    }
}

// The scopes that a scope calls, in fixed memory. A graph is asked by number and has no slices: a chain over the numbers
// is no plainer.
fn calls_of<G: ScopeGraph>(graph: &G, scope: usize) -> [bool; SCOPES]
    ensures { Row (G.ScopeGraph.graph graph.now) scope result }
{
    let mut called = [false; SCOPES];
    let nodes = graph.nodes(scope).unwrap_or(0);
    for n in 0..nodes {
        if let Some(t) = callee(graph, scope, n) {
            if t < SCOPES {
                called[t] = true;
            }
        }
    }
    called
}

// The same for each of the 16 scopes that there may be. Only those that are there are asked: a holder may have to go
// over all that it holds to say that a scope is not there.
pub fn call_table<G: ScopeGraph>(graph: &G, scopes: usize) -> [[bool; SCOPES]; SCOPES]
    requires { scopes ≡ length (G.ScopeGraph.graph graph.now) }
    ensures { (s : ℕ) → s < 16 → Row (G.ScopeGraph.graph graph.now) s (slice_index_or result s []) }
{
    array::from_fn(
        |scope| -> [bool; SCOPES]
            requires { scopes ≡ length (G.ScopeGraph.graph graph.now) }
            ensures { Row (G.ScopeGraph.graph graph.entry.now) scope result }
        {
            if scope < scopes {
                calls_of(graph, scope)
            } else {
                [false; SCOPES]
            }
        },
    )
}

// Is every called scope placed already?
pub fn ready(row: &[bool; SCOPES], placed: &[bool; SCOPES], scopes: usize) -> bool
    ensures { MatchBool result (Ready row.now placed.now scopes) (Blocked row.now placed.now scopes) }
{
    row.iter()
        .zip(placed)
        .take(scopes)
        .all(|(called, is_placed)| !*called || *is_placed)
}
