// The text of a call that changes a workbook: its words with one space between each two.
ghost use Rattle.std.specs.Prelude.{Some};
ghost use Rattle.workbook.specs.Text.{target_text, fact_text, edit_text};

use crate::edit::Edit;
use model::graph::{Constraint, Edge, Fact, Target};
use std::fmt;

// A type of its own, since a target is of another crate.
#[derive(Clone, Copy)]
struct TargetText(Target);

impl fmt::Display for TargetText {
    ghost output = { λ t. Some (target_text t.0) };

    fn fmt<W: fmt::Write>(&self, f: &mut fmt::Formatter<W>) -> fmt::Result {
        match self.0 {
            Target::To(node) => write!(f, "{node}"),
            Target::Again => write!(f, "again"),
            Target::Leave => write!(f, "leave"),
        }
    }
}

// A fact of a scope, which is of another crate too.
#[derive(Clone, Copy)]
struct FactText(usize, Fact);

impl fmt::Display for FactText {
    ghost output = { λ t. Some (fact_text t.0 t.1) };

    fn fmt<W: fmt::Write>(&self, f: &mut fmt::Formatter<W>) -> fmt::Result {
        let scope = self.0;
        let Fact {
            constraint,
            first,
            last,
        } = self.1;
        match constraint {
            Constraint::Bar(n) => write!(f, "add bar {scope} {n} {first} {last}"),
            Constraint::Must(n) => write!(f, "add must {scope} {n} {first} {last}"),
            Constraint::Pair(n, m) => write!(f, "add pair {scope} {n} {m} {first} {last}"),
        }
    }
}

impl fmt::Display for Edit {
    ghost output = { λ e. Some (edit_text e) };

    fn fmt<W: fmt::Write>(&self, f: &mut fmt::Formatter<W>) -> fmt::Result {
        match *self {
            Edit::AddScope { least, most } => write!(f, "add scope {least} {most}"),
            Edit::AddBlock { scope, time, stack } => write!(f, "add block {scope} {time} {stack}"),
            Edit::AddCall { scope, callee } => write!(f, "add call {scope} {callee}"),
            Edit::AddEdge { scope, edge } => {
                let Edge { from, to, effect } = edge;
                let to = TargetText(to);
                write!(f, "add edge {scope} {from} {to} {effect}")
            }
            Edit::AddFact { scope, fact } => {
                let text = FactText(scope, fact);
                write!(f, "{text}")
            }
            Edit::SetPasses { scope, least, most } => {
                write!(f, "set passes {scope} {least} {most}")
            }
            Edit::SetFigures {
                scope,
                node,
                time,
                stack,
            } => { write!(f, "set figures {scope} {node} {time} {stack}") }
            Edit::Strike { scope } => write!(f, "strike {scope}"),
        }
    }
}
