// Lists of calls with their answers.
use crate::step::Step;
use crate::step::Step::{Bar, Block, Edge, Figures, Passes, Scope, Strike};
use measures::cycles::Cycles;
use model::graph::Target::{Again, Leave, To};
use model::trail::Line;
use session::call::Reply::{Bound, Done, Number};
use session::call::{Answer, Call, Reply};
use session::play::play;
use std::test::Fail;
use workbook::edit::Edit;

// A step, or none for a working out; and its answer: a reply, a bound by its count, or the number of the refusal.
type Turn = (Option<Step>, Result<Reply<u64>, u8>);

fn shown(answer: Answer<Cycles>) -> Result<Reply<u64>, u8> {
    match answer {
        Ok(Number(number)) => Ok(Number(number)),
        Ok(Done) => Ok(Done),
        Ok(Bound(bound)) => Ok(Bound(bound.count)),
        Err(refusal) => Err(refusal.number()),
    }
}

fn check_play(rt: &HostRuntime, turns: &[Turn]) -> Result<(), Fail> {
    let mut calls = Vec::new(rt.alloc());
    for (step, _) in turns {
        calls.push(step.map_or(Call::WorkOut, |step| Call::Edit(Edit::from(step))))?;
    }
    let mut work = [Cycles { count: 0 }; 128];
    let mut trail = [Line {
        kind: 9,
        a: 9,
        b: 9,
    }; 331];
    let answers = play(rt.alloc(), calls.as_slice(), &mut work, &mut trail)?;
    if answers.len() != turns.len() {
        return Err(Fail::new("another number of answers"));
    }
    for (i, (answer, (_, expected))) in answers.iter().zip(turns.iter()).enumerate() {
        if shown(*answer) != *expected {
            return Err(Fail::new(format_args!("another answer number {i}")));
        }
    }
    Ok(())
}

// The refused calls leave no trace.
#[test]
fn built_and_worked_out(rt: HostRuntime) -> Result<(), Fail> {
    check_play(
        &rt,
        &[
            (None, Err(21)),
            (Some(Block(0, 5, 8)), Err(25)),
            (Some(Scope(0, 4)), Err(23)),
            (Some(Scope(1, 4)), Ok(Number(0))),
            (None, Err(43)),
            (Some(Block(0, 5, 8)), Ok(Number(0))),
            (Some(Block(0, 10, 40)), Ok(Number(1))),
            (Some(Block(0, 1000001, 16)), Err(24)),
            (Some(Block(0, 3, 16)), Ok(Number(2))),
            (Some(Block(0, 2, 8)), Ok(Number(3))),
            (Some(Edge(0, 0, To(1), -2)), Ok(Number(0))),
            (Some(Edge(0, 0, To(2), 0)), Ok(Number(1))),
            (Some(Edge(0, 2, To(1), 0)), Err(26)),
            (Some(Edge(0, 1, To(3), -1)), Ok(Number(2))),
            (Some(Edge(0, 2, To(3), 0)), Ok(Number(3))),
            (Some(Edge(0, 3, Again, -3)), Err(27)),
            (Some(Edge(0, 3, Again, -1)), Ok(Number(4))),
            (Some(Edge(0, 3, Leave, 0)), Ok(Number(5))),
            (None, Ok(Bound(53))),
            (Some(Figures(0, 1, 9, 40)), Ok(Done)),
            (None, Ok(Bound(49))),
            (Some(Figures(0, 1, 0, 40)), Err(27)),
            (None, Ok(Bound(49))),
            (Some(Bar(0, 1, 1, 4)), Ok(Number(0))),
            (None, Ok(Bound(37))),
            (Some(Strike(0)), Ok(Done)),
            (Some(Strike(0)), Err(31)),
            (None, Ok(Bound(49))),
            (Some(Passes(0, 1, 2)), Ok(Done)),
            (None, Ok(Bound(25))),
        ],
    )
}

// A struck fact holds no more, and its number is given again.
#[test]
fn struck(rt: HostRuntime) -> Result<(), Fail> {
    check_play(
        &rt,
        &[
            (Some(Scope(1, 1)), Ok(Number(0))),
            (Some(Block(0, 7, 0)), Ok(Number(0))),
            (Some(Edge(0, 0, Leave, -2)), Ok(Number(0))),
            (Some(Bar(0, 0, 1, 1)), Ok(Number(0))),
            (None, Err(43)),
            (Some(Strike(0)), Ok(Done)),
            (None, Ok(Bound(5))),
            (Some(Bar(0, 0, 1, 1)), Ok(Number(0))),
            (None, Err(43)),
        ],
    )
}
