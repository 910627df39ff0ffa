// One call that breaks two rules: the smaller number wins.
use crate::step::Step::{Bar, Block, Edge, Passes, Scope};
use crate::step::check_table;
use model::graph::Target::To;
use std::test::Fail;

#[test]
fn smaller_wins(rt: HostRuntime) -> Result<(), Fail> {
    check_table(
        &rt,
        &[Scope(1, 9), Block(0, 4, 0), Block(0, 5, 0), Bar(0, 0, 1, 5)],
        &[
            (Edge(0, 9, To(0), -1000001), Some(24)),
            (Edge(0, 9, To(0), 0), Some(25)),
            (Edge(0, 1, To(0), -6), Some(26)),
            (Bar(0, 9, 0, 1), Some(25)),
            (Passes(0, 0, 4), Some(23)),
        ],
    )
}
