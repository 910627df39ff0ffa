// What a walk over the records looks for.
ghost use Rattle.std.specs.Prelude.{◌≡◌, ℕ, List, length, Some, None, Option};
ghost use Rattle.std.proofs.Common.{ap};
ghost use Rattle.std.specs.List.{slice_get, filter_map};
ghost use Rattle.model.specs.Graph.{Scope, passes_at, node_at, edge_at, fact_at_lem, node_count_lem, edge_count, fact_count_lem};
ghost use Rattle.image.specs.declared.record.Record.{Record};
ghost use Rattle.image.specs.Meaning.{records, reading, meant};
ghost use Rattle.image.specs.Parts.{count_of, passes_in, node_in, edge_in, fact_in};
ghost use Rattle.image.specs.Found.{passes_found, scopes_found, node_found, nodes_found, edge_found, edges_found, fact_found, facts_found};

use crate::record::Record;
use model::graph::{Edge, Fact, Node};
use model::lists::{Edges, Facts, Nodes};

// One numbered list of the graph: all scopes, or the nodes, edges or facts of a scope.
pub trait Part {
    type Item: Copy;

    // what a record adds to the list
    ghost picks: { Self → Record → Option Self.Item };

    // the look-up of item n in a graph, and of their number
    ghost asked: { Self → List Scope → ℕ → Option Self.Item };

    ghost counted: { Self → List Scope → Option ℕ };

    // the scope whose list it is
    ghost home: { Self → Option ℕ };

    fn pick(&self, found: Record) -> Option<Self::Item>
        ensures { result ≡ picks self.now found };

    fn scope(&self) -> Option<usize>
        ensures { result ≡ home self.now };

    ghost finds: { (p : Self) (bs : List ℕ) (n : ℕ) → asked p (meant bs) n ≡ slice_get (filter_map (picks p) (records (reading bs))) n };

    ghost counts: { (p : Self) (bs : List ℕ) → counted p (meant bs) ≡ count_of (picks p) (home p) (records (reading bs)) };
}

// The scopes, by their passes.
#[derive(Clone, Copy)]
pub struct Scopes;

impl Part for Scopes {
    type Item = (u16, u16);

    ghost picks = { λ _. passes_in };

    ghost asked = { λ _ g n. passes_at g n };

    ghost counted = { λ _ g. Some (length g) };

    ghost home = { λ _. None };

    ghost finds = { λ p bs n. passes_found bs n };

    ghost counts = { λ p bs. ap Some (scopes_found bs) };

    fn pick(&self, found: Record) -> Option<(u16, u16)> {
        match found {
            Record::AddScope { least, most } => Some((least, most)),
            _ => None,
        }
    }

    fn scope(&self) -> Option<usize> {
        None
    }
}

// Not one generic impl: the look-ups and laws of nodes, edges and facts each have a name of their own.
impl Part for Nodes {
    type Item = Node;

    ghost picks = { λ p. node_in p.0 };

    ghost asked = { λ p g n. node_at g p.0 n };

    ghost counted = { λ p g. node_count_lem g p.0 };

    ghost home = { λ p. Some p.0 };

    ghost finds = { λ p bs n. node_found bs p.0 n };

    ghost counts = { λ p bs. nodes_found bs p.0 };

    fn pick(&self, found: Record) -> Option<Node> {
        match found {
            Record::AddNode { scope, node } if usize::from(scope) == self.0 => Some(node),
            _ => None,
        }
    }

    fn scope(&self) -> Option<usize> {
        Some(self.0)
    }
}

impl Part for Edges {
    type Item = Edge;

    ghost picks = { λ p. edge_in p.0 };

    ghost asked = { λ p g n. edge_at g p.0 n };

    ghost counted = { λ p g. edge_count g p.0 };

    ghost home = { λ p. Some p.0 };

    ghost finds = { λ p bs n. edge_found bs p.0 n };

    ghost counts = { λ p bs. edges_found bs p.0 };

    fn pick(&self, found: Record) -> Option<Edge> {
        match found {
            Record::AddEdge { scope, edge } if usize::from(scope) == self.0 => Some(edge),
            _ => None,
        }
    }

    fn scope(&self) -> Option<usize> {
        Some(self.0)
    }
}

impl Part for Facts {
    type Item = Fact;

    ghost picks = { λ p. fact_in p.0 };

    ghost asked = { λ p g n. fact_at_lem g p.0 n };

    ghost counted = { λ p g. fact_count_lem g p.0 };

    ghost home = { λ p. Some p.0 };

    ghost finds = { λ p bs n. fact_found bs p.0 n };

    ghost counts = { λ p bs. facts_found bs p.0 };

    fn pick(&self, found: Record) -> Option<Fact> {
        match found {
            Record::AddFact { scope, fact } if usize::from(scope) == self.0 => Some(fact),
            _ => None,
        }
    }

    fn scope(&self) -> Option<usize> {
        Some(self.0)
    }
}
