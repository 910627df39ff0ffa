// The calls on a workbook and their answers.
ghost use Rattle.std.specs.Prelude.{◌≡◌, Some};
ghost use Rattle.session.specs.Sequences.{reply_to};
ghost use Rattle.session.specs.Text.{call_text, reply_output};

use model::refusal::Refusal;
use std::fmt;
use workbook::edit::Edit;

// A call changes the workbook, or works its graph out.
#[derive(Clone, Copy, PartialEq, Eq, Debug)]
pub enum Call {
    Edit(Edit),
    WorkOut,
}

impl fmt::Display for Call {
    ghost output = { λ c. Some (call_text c) };

    fn fmt<W: fmt::Write>(&self, f: &mut fmt::Formatter<W>) -> fmt::Result {
        match self {
            Call::Edit(edit) => write!(f, "{edit}"),
            Call::WorkOut => write!(f, "work out"),
        }
    }
}

// What a call that is not refused answers.
#[derive(Clone, Copy, PartialEq, Eq, Debug)]
pub enum Reply<C> {
    // the number that an addition gives
    Number(usize),
    // a setting or a strike is done
    Done,
    // the bound that working out gives
    Bound(C),
}

impl<C> From<Option<usize>> for Reply<C> {
    ghost from_gives = { λ number reply. reply ≡ reply_to number };

    fn from(number: Option<usize>) -> Reply<C> {
        match number {
            Some(number) => Reply::Number(number),
            None => Reply::Done,
        }
    }
}

impl<C: fmt::Display> fmt::Display for Reply<C> {
    ghost output = { λ r. reply_output C.output r };

    fn fmt<W: fmt::Write>(&self, f: &mut fmt::Formatter<W>) -> fmt::Result {
        match self {
            Reply::Number(number) => write!(f, "{number}"),
            Reply::Done => write!(f, "done"),
            Reply::Bound(bound) => write!(f, "{bound}"),
        }
    }
}

pub type Answer<C> = Result<Reply<C>, Refusal>;
