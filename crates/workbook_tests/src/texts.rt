// What calls, replies and costs are called in a script: the lines of docs/WORKBOOK.md.
use crate::step::Step;
use measures::cycles::Cycles;
use measures::stack::Stack;
use model::graph::Target::{Again, Leave, To};
use script::cost_text::CostText;
use session::call::{Call, Reply};
use std::test::Fail;
use workbook::edit::Edit;

// Each step with its line.
const LINES: [(Step, &str); 11] = [
    (Step::Scope(1, 65535), "add scope 1 65535"),
    (Step::Block(0, 1000000, 8), "add block 0 1000000 8"),
    (Step::Call(15, 255), "add call 15 255"),
    (
        Step::Edge(0, 3, To(31), -1000000),
        "add edge 0 3 31 -1000000",
    ),
    (Step::Edge(0, 3, Again, 0), "add edge 0 3 again 0"),
    (Step::Edge(0, 3, Leave, 7), "add edge 0 3 leave 7"),
    (Step::Bar(2, 1, 3, 4), "add bar 2 1 3 4"),
    (Step::Pair(2, 1, 5, 3, 4), "add pair 2 1 5 3 4"),
    (Step::Passes(1, 2, 9), "set passes 1 2 9"),
    (Step::Figures(0, 1, 8, 40), "set figures 0 1 8 40"),
    (Step::Strike(6), "strike 6"),
];

fn check_text(text: &str, expected: &str) -> Result<(), Fail> {
    if text != expected {
        return Err(Fail::new(text));
    }
    Ok(())
}

#[test]
fn calls_as_lines(rt: HostRuntime) -> Result<(), Fail> {
    for (step, line) in LINES {
        let call = Call::Edit(Edit::from(step));
        let text = format!(in rt.alloc(); "{call}")?;
        check_text(text.as_str(), line)?;
    }
    let call = Call::WorkOut;
    let text = format!(in rt.alloc(); "{call}")?;
    check_text(text.as_str(), "work out")
}

#[test]
fn replies_and_costs(rt: HostRuntime) -> Result<(), Fail> {
    let replies: [(Reply<Cycles>, &str); 3] = [
        (Reply::Number(95), "95"),
        (Reply::Done, "done"),
        (Reply::Bound(Cycles { count: 53 }), "cycles 53"),
    ];
    for (reply, line) in replies {
        let text = format!(in rt.alloc(); "{reply}")?;
        check_text(text.as_str(), line)?;
    }
    check_text(Cycles { count: 0 }.say(rt.alloc())?.as_str(), "cycles 0")?;
    check_text(Stack { bytes: 40 }.say(rt.alloc())?.as_str(), "stack 40")
}
