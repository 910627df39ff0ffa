// A graph worked out under one measure, in tables of its own.
ghost use Rattle.std.specs.Prelude.{IfOk};
ghost use Rattle.bound_report.specs.Outcomes.{WorkedOut};

use analysis::analyze::{WORK, analyze};
use model::cost::Cost;
use model::refusal::Refusal;
use model::scope_graph::ScopeGraph;
use model::trail::{Line, SECTION};
use rules::limits::SCOPES;
use std::alloc::{AllocError, Global};

// The answer, and the trail after it.
#[derive(Drop)]
pub struct Worked<C> {
    pub answer: Result<C, Refusal>,
    pub trail: Vec<Line>,
}

pub fn work_out<C: Cost + Clone, G: ScopeGraph>(
    heap: Global,
    graph: &G,
) -> Result<Worked<C>, AllocError>
    ensures { IfOk result (λ w. WorkedOut C.measure (G.ScopeGraph.graph graph.now) w.trail.items w.answer) }
{
    let mut work = vec![in heap; C::nothing(); WORK]?;
    let mut trail = vec![in heap; Line::default(); SCOPES * SECTION]?;
    let answer = analyze(graph, work.as_mut_slice(), trail.as_mut_slice());
    Ok(Worked { answer, trail })
}
