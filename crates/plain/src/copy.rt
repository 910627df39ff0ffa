// Copying a scope out of its graph: each of its items is asked for once.
ghost use Rattle.std.specs.Prelude.{◌≡◌, ◌<◌, [], length, Some, MatchOption};
ghost use Rattle.row.specs.Rows.{items_of};
ghost use Rattle.model.specs.Graph.{Scope};
ghost use Rattle.plain.specs.Copies.{Copied};

use crate::listing::Listing;
use crate::plain_scope::PlainScope;
use model::graph::{Edge, Fact, Node};
use model::lists::{Edges, Facts, Nodes};
use model::scope_graph::ScopeGraph;
use row::row::Row;
use search::flow::Flow;
use search::prepare::{NO_EDGE, NO_FACT};

// The items of a list go into an empty row; none where they are too many.
fn fill<G: ScopeGraph, L: Listing<G>, const N: usize>(
    row: &mut Row<L::Item, N>,
    graph: &G,
    list: &L,
) -> Option<()>
    requires { items_of row.old ≡ [] }
    ensures { (s : Scope) → L.Listing.scope list.now graph.now ≡ Some s → MatchOption result (N < length (L.Listing.list s)) (λ u. items_of row.new ≡ L.Listing.list s) }
{
    let count = list.count(graph)?;
    // what is too long is not gone over
    if count > N {
        return None;
    }
    // a holder is asked by number and has no slices, so a chain would be one over numbers too
    for i in 0..count {
        row.push(list.get(graph, i)?).unwrap();
    }
    Some(())
}

// The scope of this number; none where it is not there, passes the limits, or has an edge that does not lead forward.
pub fn copy_scope<G: ScopeGraph>(graph: &G, scope: usize) -> Option<PlainScope>
    ensures { Copied (G.ScopeGraph.graph graph.now) scope result }
{
    let (least, most) = graph.passes(scope)?;
    let mut nodes = Row::<Node, 32>::new(Node::Call { scope: 0 });
    fill(&mut nodes, graph, &Nodes(scope))?;
    // the few facts before the many edges, since either may be too many
    let mut facts = Row::<Fact, 4>::new(NO_FACT);
    fill(&mut facts, graph, &Facts(scope))?;
    let mut edges = Row::<Edge, 96>::new(NO_EDGE);
    fill(&mut edges, graph, &Edges(scope))?;
    let flow = Flow::new(nodes.len(), edges.as_slice(), facts.as_slice())?;
    Some(PlainScope {
        least,
        most,
        nodes,
        flow,
    })
}
