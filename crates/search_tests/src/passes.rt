// The costliest passes of small graphs, under both measures.
use crate::small::{Small, cost_of, edge};
use measures::cycles::Cycles;
use measures::stack::Stack;
use model::cost::Cost;
use model::graph::Constraint::{Bar, Must, Pair};
use model::graph::Target::To;
use model::graph::{Constraint, Fact, Target};
use search::ending::Ending;
use search::ending::Ending::{Again, Leave};
use search::flow::Flow;
use search::way::Way;
use std::fmt::Debug;
use std::test::Fail;

fn check_way(way: Way, expected: &[u8]) -> Result<(), Fail> {
    if way.as_slice() != expected {
        return Err(Fail::new("another way"));
    }
    Ok(())
}

// What a table of cases expects of a pass: the cost of this weight and stack, and this way.
type Expected<'a> = (Option<(u32, u16)>, &'a [u8]);

// The costliest pass number 3, where all edges but one have a value.
fn check_pass<C: Cost + PartialEq + Debug + Drop>(
    graph: Small<'_>,
    facts: &[Fact],
    without: usize,
    ending: Ending,
    (cost, way): Expected<'_>,
    table: &mut [C],
) -> Result<(), Fail> {
    let Some(flow) = Flow::new(graph.blocks.len(), graph.edges, facts) else {
        return Err(Fail::new("no flow"));
    };
    let Some(found) = flow.costliest(&graph.values(without), 3, ending, table) else {
        return Err(Fail::new("no search"));
    };
    if found.cost != cost_of(cost) {
        return Err(Fail::new("another cost"));
    }
    check_way(found.way, way)
}

// The same under both measures.
fn check_both(
    graph: Small<'_>,
    facts: &[Fact],
    without: usize,
    ending: Ending,
    expected: Expected<'_>,
) -> Result<(), Fail> {
    let mut cycles = [Cycles::nothing(); 32];
    check_pass(graph, facts, without, ending, expected, &mut cycles)?;
    let mut stack = [Stack::nothing(); 32];
    check_pass(graph, facts, without, ending, expected, &mut stack)
}

// All edges have values.
const ALL: usize = 8;

#[test]
fn branches() -> Result<(), Fail> {
    let graph = Small {
        blocks: &[(5, 8), (10, 40), (3, 16), (2, 8)],
        edges: &[
            edge(0, To(1), -2),
            edge(0, To(2), 0),
            edge(1, To(3), -1),
            edge(2, To(3), 0),
            edge(3, Target::Again, -1),
            edge(3, Target::Leave, 0),
        ],
    };
    check_both(graph, &[], ALL, Again, (Some((13, 40)), &[0, 2, 4]))?;
    check_both(graph, &[], ALL, Leave, (Some((14, 40)), &[0, 2, 5]))?;
    let cases: [(Constraint, Expected<'_>, Expected<'_>); 7] = [
        (
            Bar(1),
            (Some((9, 16)), &[1, 3, 4]),
            (Some((10, 16)), &[1, 3, 5]),
        ),
        (
            Must(2),
            (Some((9, 16)), &[1, 3, 4]),
            (Some((10, 16)), &[1, 3, 5]),
        ),
        (
            Pair(1, 3),
            (Some((9, 16)), &[1, 3, 4]),
            (Some((10, 16)), &[1, 3, 5]),
        ),
        (
            Pair(3, 1),
            (Some((9, 16)), &[1, 3, 4]),
            (Some((10, 16)), &[1, 3, 5]),
        ),
        (
            Pair(1, 2),
            (Some((13, 40)), &[0, 2, 4]),
            (Some((14, 40)), &[0, 2, 5]),
        ),
        (Bar(3), (None, &[]), (None, &[])),
        (Bar(0), (None, &[]), (None, &[])),
    ];
    for (constraint, again, leave) in cases {
        let facts = [Fact {
            constraint,
            first: 2,
            last: 3,
        }];
        check_both(graph, &facts, ALL, Again, again)?;
        check_both(graph, &facts, ALL, Leave, leave)?;
    }
    Ok(())
}

#[test]
fn facts_out_of_force() -> Result<(), Fail> {
    let graph = Small {
        blocks: &[(1, 8), (9, 16)],
        edges: &[
            edge(0, To(1), 0),
            edge(0, Target::Leave, 0),
            edge(1, Target::Leave, 0),
        ],
    };
    let cases: [(u16, u16, Expected<'_>); 4] = [
        (1, 2, (Some((10, 16)), &[0, 2])),
        (1, 3, (Some((1, 8)), &[1])),
        (3, 9, (Some((1, 8)), &[1])),
        (4, 9, (Some((10, 16)), &[0, 2])),
    ];
    for (first, last, leave) in cases {
        let bar = Fact {
            constraint: Bar(1),
            first,
            last,
        };
        check_both(graph, &[bar], ALL, Leave, leave)?;
    }
    Ok(())
}

#[test]
fn without_facts() -> Result<(), Fail> {
    // node 3 is reached by a short way and by a longer, costlier one
    let detour = Small {
        blocks: &[(1, 8), (10, 16), (10, 40), (1, 8)],
        edges: &[
            edge(0, To(3), 0),
            edge(0, To(1), 0),
            edge(1, To(2), 0),
            edge(2, To(3), 0),
            edge(3, Target::Leave, 0),
        ],
    };
    // a pass for nothing is not "no pass"
    let free = Small {
        blocks: &[(0, 0)],
        edges: &[edge(0, Target::Leave, 0)],
    };
    let empty = Small {
        blocks: &[],
        edges: &[],
    };
    let cases: [(Small<'_>, usize, Ending, Expected<'_>); 9] = [
        (detour, ALL, Leave, (Some((22, 40)), &[1, 2, 3, 4])),
        (detour, ALL, Again, (None, &[])),
        // an edge without a value is not used
        (detour, 2, Leave, (Some((2, 8)), &[0, 4])),
        (detour, 4, Leave, (None, &[])),
        (free, ALL, Leave, (Some((0, 0)), &[0])),
        (free, ALL, Again, (None, &[])),
        (free, 0, Leave, (None, &[])),
        (empty, ALL, Leave, (None, &[])),
        (empty, ALL, Again, (None, &[])),
    ];
    for (graph, without, ending, expected) in cases {
        check_both(graph, &[], without, ending, expected)?;
    }
    Ok(())
}
