// What can be asked of a graph.
ghost use Rattle.std.specs.Prelude.{◌≡◌, List, length};
ghost use Rattle.model.specs.Graph.{Scope, passes_at, node_count_lem, edge_count, fact_count_lem, node_at, edge_at, fact_at_lem};

use crate::graph::{Edge, Fact, Node};

// A graph that can be asked: whoever holds one answers by what the meant graph says.
// The meant graph need not keep the limits or the rules of graphs. Beyond a count the answer is none.
pub trait ScopeGraph {
    ghost graph: { Self → List Scope };

    fn scopes(&self) -> usize
        ensures { result ≡ length (graph self.now) };

    // The least and the most number of passes of a scope: a pair, as the project asks.
    fn passes(&self, scope: usize) -> Option<(u16, u16)>
        ensures { result ≡ passes_at (graph self.now) scope };

    fn nodes(&self, scope: usize) -> Option<usize>
        ensures { result ≡ node_count_lem (graph self.now) scope };

    fn edges(&self, scope: usize) -> Option<usize>
        ensures { result ≡ edge_count (graph self.now) scope };

    fn facts(&self, scope: usize) -> Option<usize>
        ensures { result ≡ fact_count_lem (graph self.now) scope };

    fn node(&self, scope: usize, n: usize) -> Option<Node>
        ensures { result ≡ node_at (graph self.now) scope n };

    fn edge(&self, scope: usize, n: usize) -> Option<Edge>
        ensures { result ≡ edge_at (graph self.now) scope n };

    fn fact(&self, scope: usize, n: usize) -> Option<Fact>
        ensures { result ≡ fact_at_lem (graph self.now) scope n };
}
