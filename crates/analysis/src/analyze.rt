// The worst-case analysis.
ghost use Rattle.model.specs.Analysis.{Analyzed};

use crate::all::settle_all;
use model::cost::Cost;
use model::refusal::Refusal;
use model::scope_graph::ScopeGraph;
use model::trail::{Line, SECTION};
use rules::judge::first_broken;
use rules::limits::SCOPES;
use rules::order::call_order;

// The least work table. Its first places are for the bounds of the scopes, the others for the search.
pub const WORK: usize = 128;

// The tables are lent, since nothing is allocated here. The bound of scope 0, with the bound of every scope in the work table and a worst-case run of each in the trail.
pub fn analyze<C: Cost, G: ScopeGraph>(
    graph: &G,
    work: &mut [C],
    trail: &mut [Line],
) -> Result<C, Refusal>
    ensures { Analyzed C.measure (G.ScopeGraph.graph graph.now) work.old work.new trail.old trail.new result }
{
    if work.len() < WORK {
        return Err(Refusal::ShortWork);
    }
    if let Some(broken) = first_broken(graph) {
        return Err(broken);
    }
    if trail.len() < SECTION * graph.scopes() {
        return Err(Refusal::ShortTrail);
    }
    let order = call_order(graph).unwrap();
    let (bounds, table) = work.split_at_mut(SCOPES);
    let solved = settle_all(graph, &order, bounds, table, trail);
    if solved[0] {
        Ok(bounds[0])
    } else {
        Err(Refusal::NoRun)
    }
}
