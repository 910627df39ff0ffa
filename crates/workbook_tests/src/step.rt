// Calls on a workbook, written short.
use model::graph::{Constraint, Edge, Fact, Node, Target};
use model::scope_graph::ScopeGraph;
use std::test::Fail;
use workbook::book::Workbook;
use workbook::edit::Edit;

#[derive(Clone, Copy)]
pub enum Step {
    // least, most
    Scope(u16, u16),
    // scope, time, stack
    Block(usize, u32, u16),
    // scope, called scope
    Call(usize, u8),
    // scope, from, to, effect
    Edge(usize, u8, Target, i32),
    // scope, node, first, last
    Bar(usize, u8, u16, u16),
    // scope, node, node, first, last
    Pair(usize, u8, u8, u16, u16),
    // scope, least, most
    Passes(usize, u16, u16),
    // scope, node, time, stack
    Figures(usize, usize, u32, u16),
    // scope
    Strike(usize),
}

fn add_fact(scope: usize, constraint: Constraint, first: u16, last: u16) -> Edit {
    Edit::AddFact {
        scope,
        fact: Fact {
            constraint,
            first,
            last,
        },
    }
}

impl From<Step> for Edit {
    fn from(step: Step) -> Edit {
        match step {
            Step::Scope(least, most) => Edit::AddScope { least, most },
            Step::Block(scope, time, stack) => Edit::AddBlock { scope, time, stack },
            Step::Call(scope, callee) => Edit::AddCall { scope, callee },
            Step::Edge(scope, from, to, effect) => {
                Edit::AddEdge {
                    scope,
                    edge: Edge { from, to, effect },
                }
            }
            Step::Bar(scope, node, first, last) => add_fact(
                scope,
                Constraint::Bar(node),
                first,
                last,
            ),
            Step::Pair(scope, node, other, first, last) => {
                add_fact(scope, Constraint::Pair(node, other), first, last)
            }
            Step::Passes(scope, least, most) => Edit::SetPasses { scope, least, most },
            Step::Figures(scope, node, time, stack) => Edit::SetFigures {
                scope,
                node,
                time,
                stack,
            },
            Step::Strike(scope) => Edit::Strike { scope },
        }
    }
}

// The number of the refusal, none where the step is taken.
fn refusal(book: &mut Workbook, step: Step) -> Option<u8> {
    book.edit(Edit::from(step))
        .err()
        .map(|refusal| refusal.number())
}

// The counts of the workbook and of scope 0, the passes of scope 0 and its first node.
#[derive(Clone, Copy, PartialEq, Eq)]
struct View {
    scopes: usize,
    nodes: Option<usize>,
    edges: Option<usize>,
    facts: Option<usize>,
    passes: Option<(u16, u16)>,
    node: Option<Node>,
}

fn seen(book: &Workbook) -> View {
    View {
        scopes: book.scopes(),
        nodes: book.nodes(0),
        edges: book.edges(0),
        facts: book.facts(0),
        passes: book.passes(0),
        node: book.node(0, 0),
    }
}

// The number of the refusal of this step, none where it is taken.
fn check_refusal(book: &mut Workbook, step: Step, expected: Option<u8>) -> Result<(), Fail> {
    let found = refusal(book, step);
    if found != expected {
        return Err(Fail::new(format_args!("{found:?}, not {expected:?}")));
    }
    Ok(())
}

// Steps that are taken, the last of them as often as it says.
pub(crate) fn built(
    rt: &HostRuntime,
    start: &[Step],
    times: usize,
    again: Step,
) -> Result<Workbook, Fail> {
    let mut book = Workbook::new(rt.alloc())?;
    for step in start {
        check_refusal(&mut book, *step, None)?;
    }
    for _ in 0..times {
        check_refusal(&mut book, again, None)?;
    }
    Ok(book)
}

// The number of the refusal of this step, none where it is taken. A refused step leaves what is seen.
pub(crate) fn check_step(
    book: &mut Workbook,
    step: Step,
    expected: Option<u8>,
) -> Result<(), Fail> {
    let before = seen(book);
    check_refusal(book, step, expected)?;
    if expected.is_some() && seen(book) != before {
        return Err(Fail::new("a refused step has changed the workbook"));
    }
    Ok(())
}

// Each case: a step after those that all begin with, and the number of its refusal, none where it is taken.
pub(crate) fn check_table(
    rt: &HostRuntime,
    start: &[Step],
    cases: &[(Step, Option<u8>)],
) -> Result<(), Fail> {
    for (step, expected) in cases {
        let mut book = built(rt, start, 0, *step)?;
        check_step(&mut book, *step, *expected)?;
    }
    Ok(())
}
