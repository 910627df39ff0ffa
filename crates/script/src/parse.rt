// The words of a line as a call. What comes of it is checked by whoever asks; so it is no FromStr, which would promise
// more: other spaces and words behind the call are passed over here.
use model::graph::{Constraint, Edge, Fact, Target};
use session::call::Call;
use std::str::SplitWhitespace;
use workbook::edit::Edit;

// A number of whatever type is asked for.
fn number<T: TryFrom<i64>>(words: &mut SplitWhitespace<'_>) -> Option<T>
where
    T::Error: Drop,
{
    T::try_from(words.next()?.parse::<i64>().ok()?).ok()
}

fn target(words: &mut SplitWhitespace<'_>) -> Option<Target> {
    match words.next()? {
        "again" => Some(Target::Again),
        "leave" => Some(Target::Leave),
        node => Some(Target::To(node.parse::<u8>().ok()?)),
    }
}

fn edge(words: &mut SplitWhitespace<'_>) -> Option<Edge> {
    Some(Edge {
        from: number(words)?,
        to: target(words)?,
        effect: number(words)?,
    })
}

// The passes of a fact in force.
fn fact(constraint: Constraint, words: &mut SplitWhitespace<'_>) -> Option<Fact> {
    Some(Fact {
        constraint,
        first: number(words)?,
        last: number(words)?,
    })
}

fn add_fact(kind: &str, words: &mut SplitWhitespace<'_>) -> Option<Edit> {
    let scope = number(words)?;
    let node = number(words)?;
    let constraint = match kind {
        "bar" => Constraint::Bar(node),
        "must" => Constraint::Must(node),
        "pair" => Constraint::Pair(node, number(words)?),
        _ => return None,
    };
    Some(Edit::AddFact {
        scope,
        fact: fact(constraint, words)?,
    })
}

fn add(words: &mut SplitWhitespace<'_>) -> Option<Edit> {
    match words.next()? {
        "scope" => Some(Edit::AddScope {
            least: number(words)?,
            most: number(words)?,
        }),
        "block" => Some(Edit::AddBlock {
            scope: number(words)?,
            time: number(words)?,
            stack: number(words)?,
        }),
        "call" => Some(Edit::AddCall {
            scope: number(words)?,
            callee: number(words)?,
        }),
        "edge" => Some(Edit::AddEdge {
            scope: number(words)?,
            edge: edge(words)?,
        }),
        kind => add_fact(kind, words),
    }
}

fn set(words: &mut SplitWhitespace<'_>) -> Option<Edit> {
    match words.next()? {
        "passes" => Some(Edit::SetPasses {
            scope: number(words)?,
            least: number(words)?,
            most: number(words)?,
        }),
        "figures" => Some(Edit::SetFigures {
            scope: number(words)?,
            node: number(words)?,
            time: number(words)?,
            stack: number(words)?,
        }),
        _ => None,
    }
}

pub(crate) fn parse(line: &str) -> Option<Call> {
    let mut words = line.split_whitespace();
    match words.next()? {
        "add" => Some(Call::Edit(add(&mut words)?)),
        "set" => Some(Call::Edit(set(&mut words)?)),
        "strike" => Some(Call::Edit(Edit::Strike {
            scope: number(&mut words)?,
        })),
        "work" => Some(Call::WorkOut),
        _ => None,
    }
}
