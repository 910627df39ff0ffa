// The limits, at their edges.
use crate::step::Step::{Bar, Block, Call, Edge, Scope, Strike};
use crate::step::{Step, built, check_step};
use model::graph::Target::Leave;
use std::test::Fail;

// After so many of a step, the next one and the number of its refusal, none where it is taken.
#[test]
fn counts(rt: HostRuntime) -> Result<(), Fail> {
    let cases: [(usize, Step, Step, Option<u8>); 12] = [
        (14, Scope(1, 1), Scope(1, 1), None),
        (15, Scope(1, 1), Scope(1, 1), Some(22)),
        (30, Block(0, 0, 0), Block(0, 0, 0), None),
        (31, Block(0, 0, 0), Block(0, 0, 0), Some(22)),
        (95, Edge(0, 0, Leave, 0), Edge(0, 0, Leave, 0), None),
        (96, Edge(0, 0, Leave, 0), Edge(0, 0, Leave, 0), Some(22)),
        (3, Bar(0, 0, 1, 1), Bar(0, 0, 1, 1), None),
        (4, Bar(0, 0, 1, 1), Bar(0, 0, 1, 1), Some(22)),
        // no other rule is looked at
        (15, Scope(1, 1), Scope(0, 1), Some(22)),
        (31, Block(0, 0, 0), Call(0, 9), Some(22)),
        (
            96,
            Edge(0, 0, Leave, 0),
            Edge(0, 9, Leave, -1000001),
            Some(22),
        ),
        (4, Bar(0, 0, 1, 1), Bar(0, 9, 0, 1), Some(22)),
    ];
    for (times, again, last, expected) in cases {
        let mut book = built(&rt, &[Scope(1, 1), Block(0, 0, 0)], times, again)?;
        check_step(&mut book, last, expected)?;
    }
    Ok(())
}

#[test]
fn struck_place(rt: HostRuntime) -> Result<(), Fail> {
    let mut book = built(&rt, &[Scope(1, 1), Block(0, 0, 0)], 4, Bar(0, 0, 1, 1))?;
    check_step(&mut book, Bar(0, 0, 1, 1), Some(22))?;
    check_step(&mut book, Strike(0), None)?;
    check_step(&mut book, Bar(0, 0, 1, 1), None)?;
    check_step(&mut book, Bar(0, 0, 1, 1), Some(22))
}
