// What is refused of an addition, each at its edge.
use crate::step::Step::{Bar, Block, Call, Edge, Figures, Pair, Passes, Scope, Strike};
use crate::step::check_table;
use model::graph::Target::{Again, Leave, To};
use std::test::Fail;

// A missing scope comes before all else.
#[test]
fn missing_scopes(rt: HostRuntime) -> Result<(), Fail> {
    check_table(
        &rt,
        &[Scope(1, 9)],
        &[
            (Block(1, 0, 0), Some(25)),
            (Block(1, 1000001, 0), Some(25)),
            (Call(1, 0), Some(25)),
            (Edge(1, 0, Leave, 0), Some(25)),
            (Edge(1, 0, Leave, 1000001), Some(25)),
            (Bar(1, 0, 1, 1), Some(25)),
            (Passes(1, 1, 1), Some(25)),
            (Passes(1, 0, 1), Some(25)),
            (Figures(1, 0, 0, 0), Some(25)),
            (Figures(1, 0, 1000001, 0), Some(25)),
            (Strike(1), Some(25)),
        ],
    )
}

#[test]
fn nodes(rt: HostRuntime) -> Result<(), Fail> {
    check_table(
        &rt,
        &[Scope(1, 9), Scope(1, 9), Call(0, 1)],
        &[
            (Scope(1, 1), None),
            (Scope(0, 1), Some(23)),
            (Scope(2, 1), Some(23)),
            (Block(0, 1000000, 65535), None),
            (Block(0, 1000001, 0), Some(24)),
            (Call(0, 1), None),
            (Call(0, 2), Some(25)),
            (Call(1, 1), Some(28)),
            (Call(1, 0), Some(28)),
        ],
    )
}

#[test]
fn edges(rt: HostRuntime) -> Result<(), Fail> {
    check_table(
        &rt,
        &[Scope(1, 9), Block(0, 4, 0), Block(0, 5, 0)],
        &[
            (Edge(0, 0, To(1), 1000000), None),
            (Edge(0, 0, To(1), 1000001), Some(24)),
            (Edge(0, 0, To(1), -1000001), Some(24)),
            (Edge(0, 2, Leave, 0), Some(25)),
            (Edge(0, 0, To(2), 0), Some(25)),
            (Edge(0, 0, To(0), 0), Some(26)),
            (Edge(0, 1, To(0), 0), Some(26)),
            (Edge(0, 0, Again, -4), None),
            (Edge(0, 0, Again, -5), Some(27)),
        ],
    )
}

#[test]
fn facts(rt: HostRuntime) -> Result<(), Fail> {
    check_table(
        &rt,
        &[Scope(1, 9), Block(0, 0, 0), Block(0, 0, 0)],
        &[
            (Bar(0, 1, 1, 9), None),
            (Bar(0, 2, 1, 9), Some(25)),
            (Bar(0, 1, 0, 9), Some(29)),
            (Bar(0, 1, 1, 10), Some(29)),
            (Bar(0, 1, 3, 2), Some(29)),
            (Pair(0, 1, 0, 1, 1), None),
            (Pair(0, 1, 1, 1, 1), Some(29)),
            (Pair(0, 0, 2, 1, 1), Some(25)),
        ],
    )
}
