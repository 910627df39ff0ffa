// The limits, at their edges.
use crate::images::number;
use image_records::record::Record::{Bar, Block, Edge, Scope};
use image_records::record::{LEAVE, Record};
use std::test::Fail;

#[test]
fn counts(rt: HostRuntime) -> Result<(), Fail> {
    let cases: [(usize, &[Record], Option<u8>); 12] = [
        (15, &[Scope(1, 1)], None),
        (16, &[Scope(1, 1)], Some(22)),
        (31, &[Block(0, 0, 0)], None),
        (32, &[Block(0, 0, 0)], Some(22)),
        (96, &[Edge(0, 0, LEAVE, 0)], None),
        (97, &[Edge(0, 0, LEAVE, 0)], Some(22)),
        (4, &[Bar(0, 0, 1, 1)], None),
        (5, &[Bar(0, 0, 1, 1)], Some(22)),
        // nothing of a graph that is too large is looked at
        (16, &[Scope(0, 1)], Some(22)),
        (32, &[Block(0, 1000001, 0)], Some(22)),
        (97, &[Edge(0, 9, 0, -1000001)], Some(22)),
        (5, &[Bar(0, 9, 0, 1)], Some(22)),
    ];
    for (times, records, expected) in cases {
        assert_eq!(rt;
            number(
                &rt,
                &[(1, &[Scope(1, 1), Block(0, 0, 0)]), (times, records)]
            )?,
            expected
        );
    }
    Ok(())
}
