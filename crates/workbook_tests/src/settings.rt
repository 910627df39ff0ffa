// What is refused of a setting or a strike, each at its edge.
use crate::step::Step::{Bar, Block, Call, Edge, Figures, Passes, Scope, Strike};
use crate::step::check_table;
use model::graph::Target::Leave;
use std::test::Fail;

#[test]
fn new_passes(rt: HostRuntime) -> Result<(), Fail> {
    check_table(
        &rt,
        &[Scope(1, 9), Block(0, 0, 0), Bar(0, 0, 1, 5)],
        &[
            (Passes(0, 5, 5), None),
            (Passes(0, 1, 4), Some(29)),
            (Passes(0, 0, 9), Some(23)),
            (Passes(0, 9, 8), Some(23)),
        ],
    )
}

#[test]
fn new_figures(rt: HostRuntime) -> Result<(), Fail> {
    check_table(
        &rt,
        &[
            Scope(1, 9),
            Scope(1, 9),
            Block(0, 4, 0),
            Call(0, 1),
            Edge(0, 0, Leave, -3),
        ],
        &[
            (Figures(0, 0, 1000000, 7), None),
            (Figures(0, 0, 1000001, 7), Some(24)),
            (Figures(0, 0, 3, 7), None),
            (Figures(0, 0, 2, 7), Some(27)),
            (Figures(0, 1, 1000000, 7), Some(30)),
            (Figures(0, 1, 1000001, 7), Some(24)),
            (Figures(0, 2, 1000000, 7), Some(25)),
            (Figures(0, 2, 1000001, 7), Some(24)),
        ],
    )
}

#[test]
fn strikes(rt: HostRuntime) -> Result<(), Fail> {
    check_table(
        &rt,
        &[Scope(1, 9), Scope(1, 9), Block(1, 0, 0), Bar(1, 0, 1, 1)],
        &[(Strike(1), None), (Strike(0), Some(31))],
    )
}
