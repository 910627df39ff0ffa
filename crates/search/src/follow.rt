// The walk from node 0 along the chosen edges.
ghost use Rattle.std.specs.Prelude.{◌≡◌, ◌<◌, true, is_some, None, slice_index_or};
ghost use Rattle.model.specs.declared.graph.Target.TheVariants.{To};
ghost use Rattle.search.specs.Flows.{edges_of};
ghost use Rattle.search.specs.Ways.{way_edges, Follows, Guides};

use crate::flow::Flow;
use crate::way::Way;
use model::graph::Target;
use row::row::Row;

pub fn follow(flow: &Flow, choices: &[Option<u8>; 32]) -> Way
    requires some { 0 < flow.now.nodes }
    requires starts { is_some (slice_index_or choices.now 0 None) ≡ true }
    requires guides { Guides (edges_of flow.now) choices.now flow.now.nodes }
    ensures { Follows (edges_of flow.now) choices.now (To 0) (way_edges result) }
{
    let edges = flow.edges.as_slice();
    let mut way = Row::new(0);
    let mut place = Target::To(0);
    // casts: tried `usize::from`, whose answers the facts on the walk did not follow
    while let Target::To(node) = place {
        let Some(edge) = choices[node as usize] else {
            return way;
        };
        // there is room: the walk goes on to later nodes alone
        way.push(edge).unwrap();
        place = edges[edge as usize].to;
    }
    way
}
