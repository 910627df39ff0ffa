// What one record of an image says.
ghost use Rattle.std.specs.Prelude.{◌≡◌};
ghost use Rattle.image.specs.Layout.{size_of, IsKindOf};

use model::graph::{Edge, Fact, Node};
use model::refusal::Refusal;

#[derive(Clone, Copy)]
pub enum Kind {
    Scope,
    Block,
    Call,
    Edge,
    Bar,
    Must,
    Pair,
}

impl TryFrom<u8> for Kind {
    type Error = Refusal;

    ghost try_from_gives = { IsKindOf };

    fn try_from(number: u8) -> Result<Kind, Refusal> {
        match number {
            1 => Ok(Kind::Scope),
            2 => Ok(Kind::Block),
            3 => Ok(Kind::Call),
            4 => Ok(Kind::Edge),
            5 => Ok(Kind::Bar),
            6 => Ok(Kind::Must),
            7 => Ok(Kind::Pair),
            _ => Err(Refusal::UnknownKind),
        }
    }
}

impl Kind {
    // The whole length of a record.
    pub fn size(self) -> u8
        ensures { result ≡ size_of self }
    {
        match self {
            Kind::Scope => 6,
            Kind::Block => 9,
            Kind::Call => 4,
            Kind::Edge => 9,
            Kind::Bar => 8,
            Kind::Must => 8,
            Kind::Pair => 9,
        }
    }
}

// A scope, or a part of the scope that the record names.
#[derive(Clone, Copy)]
pub enum Record {
    AddScope { least: u16, most: u16 },
    AddNode { scope: u8, node: Node },
    AddEdge { scope: u8, edge: Edge },
    AddFact { scope: u8, fact: Fact },
}
