// Each rule alone, at its edge.
use crate::images::check_table;
use image_records::record::Record::{Bar, Block, Call, Edge, Must, Pair, Scope};
use image_records::record::{AGAIN, LEAVE, Record};
use std::test::Fail;

#[test]
fn passes(rt: HostRuntime) -> Result<(), Fail> {
    check_table(
        &rt,
        &[],
        &[
            (&[], Some(21)),
            (&[Scope(1, 1)], None),
            (&[Scope(0, 1)], Some(23)),
            (&[Scope(0, 0)], Some(23)),
            (&[Scope(2, 1)], Some(23)),
            (&[Scope(65535, 65535)], None),
            (&[Scope(1, 1), Scope(0, 1)], Some(23)),
        ],
    )
}

#[test]
fn figures(rt: HostRuntime) -> Result<(), Fail> {
    check_table(
        &rt,
        &[Scope(1, 9)],
        &[
            (&[Block(0, 1000000, 0)], None),
            (&[Block(0, 1000001, 0)], Some(24)),
            (&[Block(0, 4294967295, 0)], Some(24)),
            (&[Block(0, 1000000, 0), Edge(0, 0, LEAVE, -1000000)], None),
            (
                &[Block(0, 1000000, 0), Edge(0, 0, LEAVE, -1000001)],
                Some(24),
            ),
            (&[Block(0, 0, 0), Edge(0, 0, LEAVE, 1000000)], None),
            (&[Block(0, 0, 0), Edge(0, 0, LEAVE, 1000001)], Some(24)),
            (&[Block(0, 0, 0), Edge(0, 0, LEAVE, 2147483647)], Some(24)),
            (&[Block(0, 0, 0), Edge(0, 0, LEAVE, -2147483648)], Some(24)),
            (&[Block(0, 4, 0), Edge(0, 0, AGAIN, -4)], None),
            (&[Block(0, 4, 0), Edge(0, 0, AGAIN, -5)], Some(27)),
            // the time of the start counts, and of no other node
            (
                &[Block(0, 4, 0), Block(0, 5, 0), Edge(0, 0, 1, -5)],
                Some(27),
            ),
        ],
    )
}

#[test]
fn names(rt: HostRuntime) -> Result<(), Fail> {
    check_table(
        &rt,
        &[Scope(1, 9), Scope(1, 9)],
        &[
            (&[Call(0, 1)], None),
            (&[Call(0, 2)], Some(25)),
            (&[Call(0, 255)], Some(25)),
            (&[Edge(0, 0, LEAVE, 0)], Some(25)),
            (&[Block(0, 0, 0), Edge(0, 1, LEAVE, 0)], Some(25)),
            (&[Block(0, 0, 0), Edge(0, 0, 1, 0)], Some(25)),
            // a node of another scope
            (
                &[Block(0, 0, 0), Block(1, 0, 0), Edge(0, 0, 1, 0)],
                Some(25),
            ),
            (&[Block(0, 0, 0), Block(0, 0, 0), Edge(0, 0, 1, 0)], None),
            (&[Bar(0, 0, 1, 1)], Some(25)),
            (&[Block(0, 0, 0), Must(0, 1, 1, 1)], Some(25)),
            (&[Block(0, 0, 0), Pair(0, 0, 1, 1, 1)], Some(25)),
            (&[Block(0, 0, 0), Pair(0, 1, 0, 1, 1)], Some(25)),
            (&[Block(0, 0, 0), Block(0, 0, 0), Pair(0, 1, 0, 1, 1)], None),
        ],
    )
}

#[test]
fn edges(rt: HostRuntime) -> Result<(), Fail> {
    check_table(
        &rt,
        &[
            Scope(1, 9),
            Scope(1, 9),
            Block(0, 0, 0),
            Block(0, 1, 0),
            Call(0, 1),
        ],
        &[
            (&[Edge(0, 0, 0, 0)], Some(26)),
            (&[Edge(0, 1, 0, 0)], Some(26)),
            (&[Edge(0, 0, 1, 0), Edge(0, 0, 1, 0)], None),
            // out of a call the effect is the weight
            (&[Edge(0, 2, AGAIN, 0)], None),
            (&[Edge(0, 2, AGAIN, -1)], Some(27)),
            (&[Edge(0, 1, 2, -1)], None),
        ],
    )
}

#[test]
fn calls(rt: HostRuntime) -> Result<(), Fail> {
    check_table(
        &rt,
        &[Scope(1, 1), Scope(1, 1), Scope(1, 1), Scope(1, 1)],
        &[
            (&[Call(0, 0)], Some(28)),
            (&[Call(3, 3)], Some(28)),
            (&[Call(0, 1), Call(1, 0)], Some(28)),
            (&[Call(0, 1), Call(1, 2), Call(2, 3)], None),
            (&[Call(3, 2), Call(2, 1), Call(1, 0)], None),
            (&[Call(0, 1), Call(1, 3), Call(3, 2), Call(2, 1)], Some(28)),
            (&[Call(0, 1), Call(0, 2), Call(1, 3), Call(2, 3)], None),
        ],
    )
}

#[test]
fn facts(rt: HostRuntime) -> Result<(), Fail> {
    check_table(
        &rt,
        &[Scope(1, 9), Block(0, 0, 0), Block(0, 0, 0)],
        &[
            (&[Bar(0, 0, 1, 9)], None),
            (&[Bar(0, 0, 0, 9)], Some(29)),
            (&[Must(0, 0, 3, 2)], Some(29)),
            (&[Must(0, 0, 3, 3)], None),
            (&[Must(0, 0, 1, 10)], Some(29)),
            (&[Pair(0, 1, 1, 1, 1)], Some(29)),
            (&[Pair(0, 1, 0, 1, 1)], None),
            (&[Pair(0, 1, 0, 0, 0)], Some(29)),
        ],
    )
}
