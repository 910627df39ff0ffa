// What a search takes.
use crate::small::{Small, edge};
use measures::cycles::Cycles;
use model::cost::Cost;
use model::graph::Target::To;
use model::graph::{Constraint, Edge, Fact, Target};
use search::ending::Ending;
use search::flow::Flow;
use search::power::power_of;
use std::test::Fail;

#[test]
fn flows(rt: HostRuntime) {
    let edges = [edge(0, Target::Leave, 0); 97];
    let facts = [Fact {
        constraint: Constraint::Bar(1),
        first: 1,
        last: 1,
    }; 5];
    let cases: [(usize, &[Edge], &[Fact], bool); 11] = [
        (0, &[], &[], true),
        (32, &edges[0..96], &facts[0..4], true),
        (33, &edges[0..96], &facts[0..4], false),
        (32, &edges, &facts[0..4], false),
        (32, &edges[0..96], &facts, false),
        // forward, to itself, back, past the last node, from past the last node
        (3, &[edge(1, To(2), 0)], &[], true),
        (3, &[edge(1, To(1), 0)], &[], false),
        (3, &[edge(1, To(0), 0)], &[], false),
        (3, &[edge(1, To(3), 0)], &[], false),
        (3, &[edge(3, Target::Leave, 0)], &[], false),
        (3, &[edge(3, Target::Again, 0)], &[], false),
    ];
    for (nodes, edges, facts, taken) in cases {
        assert!(rt; Flow::new(nodes, edges, facts).is_some() == taken);
    }
}

#[test]
fn tables(rt: HostRuntime) -> Result<(), Fail> {
    let graph = Small {
        blocks: &[(7, 9)],
        edges: &[edge(0, Target::Leave, 0)],
    };
    let Some(flow) = Flow::new(1, graph.edges, &[]) else {
        return Err(Fail::new("no flow"));
    };
    let values = graph.values(8);
    let mut short = [Cycles::nothing(); 31];
    assert!(rt;
        flow.costliest(&values, 1, Ending::Leave, &mut short)
            .is_none()
    );
    let mut table = [Cycles::nothing(); 32];
    assert!(rt;
        flow.costliest(&values, 1, Ending::Leave, &mut table)
            .is_some()
    );
    Ok(())
}

#[test]
fn powers(rt: HostRuntime) {
    let cases: [(u32, u32); 6] = [(0, 0), (1, 3), (2, 6), (5, 15), (8, 24), (1000, 3000)];
    for (times, count) in cases {
        assert_eq!(rt; power_of(Cycles::of(3, 0), times), Cycles::of(count, 0));
    }
}
