// Two rules broken: the smaller number wins, though it stands later.
use crate::images::check_table;
use image_records::record::Record::{Bar, Block, Call, Edge, Scope};
use image_records::record::{LEAVE, Record};
use std::test::Fail;

#[test]
fn smaller_wins(rt: HostRuntime) -> Result<(), Fail> {
    check_table(
        &rt,
        &[Scope(1, 1), Scope(1, 1), Block(0, 0, 0), Block(0, 0, 0)],
        &[
            (&[Bar(0, 0, 0, 1), Call(0, 0)], Some(28)),
            (&[Bar(0, 0, 0, 1), Edge(0, 0, LEAVE, -1)], Some(27)),
            (&[Bar(0, 0, 0, 1), Edge(0, 1, 0, 0)], Some(26)),
            (&[Bar(0, 0, 0, 1), Bar(0, 9, 1, 1)], Some(25)),
            (&[Bar(0, 0, 0, 1), Block(1, 1000001, 0)], Some(24)),
            (&[Bar(0, 0, 0, 1), Scope(0, 1)], Some(23)),
            (&[Call(0, 0), Edge(0, 0, LEAVE, -1)], Some(27)),
            (&[Edge(0, 0, LEAVE, -1), Edge(0, 1, 1, 0)], Some(26)),
            (&[Edge(0, 1, 1, 0), Call(1, 9)], Some(25)),
            (&[Call(0, 9), Edge(0, 0, LEAVE, 1000001)], Some(24)),
            (&[Edge(0, 9, LEAVE, -1), Block(0, 1000001, 0)], Some(24)),
            (&[Block(0, 1000001, 0), Scope(2, 1)], Some(23)),
            // of one edge: the effect, the ends, the direction, the weight
            (&[Edge(0, 9, 0, -1000001)], Some(24)),
            (&[Edge(0, 1, 0, -1)], Some(26)),
        ],
    )
}
