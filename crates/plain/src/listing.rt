// The numbered lists of a scope, asked item by item.
ghost use Rattle.std.specs.Prelude.{◌≡◌, ℕ, Option, List, length};
ghost use Rattle.std.specs.List.{slice_get};
ghost use Rattle.model.specs.Graph.{Scope, in_scope};

use model::graph::{Edge, Fact, Node};
use model::lists::{Edges, Facts, Nodes};
use model::scope_graph::ScopeGraph;

// One of the lists of a scope.
pub trait Listing<G: ScopeGraph> {
    type Item: Copy;

    ghost scope: { Self → G → Option Scope };

    ghost list: { Scope → List Self.Item };

    // How many items it has, where the scope is there.
    fn count(&self, graph: &G) -> Option<usize>
        ensures { result ≡ in_scope (scope self.now graph.now) (λ s. Some (length (list s))) };

    // Item number i.
    fn get(&self, graph: &G, i: usize) -> Option<Self::Item>
        ensures { result ≡ in_scope (scope self.now graph.now) (λ s. slice_get (list s) i) };
}

// An impl for each list, since each names its own question of the holder.
impl<G: ScopeGraph> Listing<G> for Nodes {
    type Item = Node;

    ghost scope = { λ p g. slice_get (G.ScopeGraph.graph g) p.0 };

    ghost list = { λ s. s.nodes };

    fn count(&self, graph: &G) -> Option<usize> {
        graph.nodes(self.0)
    }

    fn get(&self, graph: &G, i: usize) -> Option<Node> {
        graph.node(self.0, i)
    }
}

impl<G: ScopeGraph> Listing<G> for Edges {
    type Item = Edge;

    ghost scope = { λ p g. slice_get (G.ScopeGraph.graph g) p.0 };

    ghost list = { λ s. s.edges };

    fn count(&self, graph: &G) -> Option<usize> {
        graph.edges(self.0)
    }

    fn get(&self, graph: &G, i: usize) -> Option<Edge> {
        graph.edge(self.0, i)
    }
}

impl<G: ScopeGraph> Listing<G> for Facts {
    type Item = Fact;

    ghost scope = { λ p g. slice_get (G.ScopeGraph.graph g) p.0 };

    ghost list = { λ s. s.facts };

    fn count(&self, graph: &G) -> Option<usize> {
        graph.facts(self.0)
    }

    fn get(&self, graph: &G, i: usize) -> Option<Fact> {
        graph.fact(self.0, i)
    }
}
