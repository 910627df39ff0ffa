// What an image with mixed records answers.
use image::open::open;
use model::graph::{Constraint, Edge, Fact, Node, Target};
use model::scope_graph::ScopeGraph;
use std::test::Fail;

// Records of two scopes are mixed, and edges come before the nodes that they join.
const MIXED: [u8; 91] = [
    1, 0, 0, 0, 91, //
    6, 1, 0, 1, 1, 4, //
    9, 4, 0, 0, 1, 255, 255, 255, 254, //
    8, 5, 0, 1, 0, 1, 0, 2, //
    6, 1, 0, 0, 0, 7, //
    9, 2, 1, 255, 255, 255, 255, 1, 2, //
    9, 4, 1, 3, 254, 127, 255, 255, 255, //
    9, 2, 0, 0, 0, 1, 2, 0, 9, //
    9, 4, 0, 1, 255, 0, 0, 0, 0, //
    4, 3, 0, 1, //
    8, 6, 0, 0, 1, 0, 2, 0, //
    9, 7, 0, 3, 1, 0, 1, 0, 2, //
];

#[test]
fn counts(rt: HostRuntime) -> Result<(), Fail> {
    let image = open(&MIXED)?;
    assert_eq!(rt; image.scopes(), 2);
    assert_eq!(rt; image.passes(0), Some((1, 260)));
    assert_eq!(rt; image.passes(1), Some((0, 7)));
    assert_eq!(rt; image.passes(2), None);
    assert_eq!(rt; image.nodes(0), Some(2));
    assert_eq!(rt; image.nodes(1), Some(1));
    assert_eq!(rt; image.nodes(2), None);
    assert_eq!(rt; image.edges(0), Some(2));
    assert_eq!(rt; image.edges(1), Some(1));
    assert_eq!(rt; image.facts(0), Some(3));
    assert_eq!(rt; image.facts(1), Some(0));
    assert_eq!(rt; image.facts(2), None);
    Ok(())
}

#[test]
fn nodes_and_edges(rt: HostRuntime) -> Result<(), Fail> {
    let image = open(&MIXED)?;
    assert_eq!(rt;
        image.node(0, 0),
        Some(Node::Block {
            time: 258,
            stack: 9,
        })
    );
    assert_eq!(rt; image.node(0, 1), Some(Node::Call { scope: 1 }));
    assert_eq!(rt; image.node(0, 2), None);
    assert_eq!(rt;
        image.node(1, 0),
        Some(Node::Block {
            time: 4294967295,
            stack: 258,
        })
    );
    assert_eq!(rt;
        image.edge(0, 0),
        Some(Edge {
            from: 0,
            to: Target::To(1),
            effect: -2,
        })
    );
    assert_eq!(rt;
        image.edge(0, 1),
        Some(Edge {
            from: 1,
            to: Target::Leave,
            effect: 0,
        })
    );
    assert_eq!(rt; image.edge(0, 2), None);
    assert_eq!(rt;
        image.edge(1, 0),
        Some(Edge {
            from: 3,
            to: Target::Again,
            effect: 2147483647,
        })
    );
    assert_eq!(rt; image.edge(2, 0), None);
    Ok(())
}

#[test]
fn facts(rt: HostRuntime) -> Result<(), Fail> {
    let image = open(&MIXED)?;
    assert_eq!(rt;
        image.fact(0, 0),
        Some(Fact {
            constraint: Constraint::Bar(1),
            first: 1,
            last: 2,
        })
    );
    assert_eq!(rt;
        image.fact(0, 1),
        Some(Fact {
            constraint: Constraint::Must(0),
            first: 256,
            last: 512,
        })
    );
    assert_eq!(rt;
        image.fact(0, 2),
        Some(Fact {
            constraint: Constraint::Pair(3, 1),
            first: 1,
            last: 2,
        })
    );
    assert_eq!(rt; image.fact(0, 3), None);
    assert_eq!(rt; image.fact(1, 0), None);
    Ok(())
}
