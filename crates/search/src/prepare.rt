// Making a flow.
ghost use Rattle.std.specs.Prelude.{◌≡◌};
ghost use Rattle.search.specs.Flows.{Prepared};
ghost use Rattle.search.specs.Walks.{leads_forward_lem, all_forward_lem};

use crate::exits::exits_of;
use crate::flow::Flow;
use model::graph::{Constraint, Edge, Fact, Target};
use row::row::Row;

// What fills the places that are not taken.
pub const NO_EDGE: Edge = Edge {
    from: 0,
    to: Target::Leave,
    effect: 0,
};

pub const NO_FACT: Fact = Fact {
    constraint: Constraint::Bar(0),
    first: 0,
    last: 0,
};

// Does the edge join two of these nodes in rising order, or one of them and an ending?
fn leads_forward(edge: Edge, nodes: usize) -> bool
    ensures { result ≡ leads_forward_lem nodes edge }
{
    usize::from(edge.from) < nodes
        && match edge.to {
            Target::To(v) => edge.from < v && usize::from(v) < nodes,
            Target::Again | Target::Leave => true,
        }
}

fn all_forward(edges: &[Edge], nodes: usize) -> bool
    ensures { result ≡ all_forward_lem nodes edges.now }
{
    for edge in edges {
        if !leads_forward(*edge, nodes) {
            return false;
        }
    }
    true
}

impl Flow {
    // The edges and facts of a scope with so many nodes; none where they pass the limits or an edge does not lead forward.
    pub fn new(nodes: usize, edges: &[Edge], facts: &[Fact]) -> Option<Flow>
        ensures { Prepared nodes edges.now facts.now result }
    {
        // the limits first: what is too long is not gone over
        if nodes > 32 || edges.len() > 96 || facts.len() > 4 {
            return None;
        }
        if !all_forward(edges, nodes) {
            return None;
        }
        let mut edge_row = Row::new(NO_EDGE);
        edge_row.extend_from_slice(edges).unwrap();
        let mut fact_row = Row::new(NO_FACT);
        fact_row.extend_from_slice(facts).unwrap();
        Some(Flow {
            nodes,
            edges: edge_row,
            facts: fact_row,
            exits: exits_of(edges),
        })
    }
}
