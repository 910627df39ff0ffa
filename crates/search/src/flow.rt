// The edges and facts of a scope, made ready for the search.
ghost use Rattle.std.specs.Prelude.{◌≡◌, ◌≤◌, true};
ghost use Rattle.row.specs.Rows.{items_of};
ghost use Rattle.search.specs.Exits.{FirstsKept, NextsKept};
ghost use Rattle.search.specs.Walks.{all_forward_lem};

use crate::exits::Exits;
use model::graph::{Edge, Fact};
use row::row::Row;

// At most 32 nodes, 96 edges, all of which lead forward, and 4 facts.
#[derive(Clone, Copy)]
pub struct Flow {
    pub(crate) nodes: usize,
    pub edges: Row<Edge, 96>,
    pub facts: Row<Fact, 4>,
    pub(crate) exits: Exits,
    ghost fewnodes: { nodes ≤ 32 },
    ghost forward: { all_forward_lem nodes (items_of edges) ≡ true },
    ghost firsts: { FirstsKept (items_of edges) exits.first },
    ghost nexts: { NextsKept (items_of edges) exits.next },
}
