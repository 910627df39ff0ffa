// One record, read from the bytes that it begins.
ghost use Rattle.std.specs.Prelude.{◌≡◌, ◌+◌, ◌≤◌, length, drop, MatchResult};
ghost use Rattle.image.specs.Layout.{one, two as two_at, four as four_at, size_of, target_of, fields, front_of};

use crate::record::{Kind, Record};
use model::graph::{Constraint, Edge, Fact, Node, Target};
use model::refusal::Refusal;

// The number of two bytes that begins at a place.
fn two(b: &[u8], at: usize) -> u16
    requires { at + 2 ≤ length b.now }
    ensures { result ≡ two_at b.now at }
{
    u16::from_be_bytes([b[at], b[at + 1]])
}

// The number of four bytes that begins at a place.
fn four(b: &[u8], at: usize) -> u32
    requires { at + 4 ≤ length b.now }
    ensures { result ≡ four_at b.now at }
{
    u32::from_be_bytes([b[at], b[at + 1], b[at + 2], b[at + 3]])
}

// No impl of From: the byte and Target are both of other crates.
fn target(number: u8) -> Target
    ensures { result ≡ target_of number }
{
    match number {
        254 => Target::Again,
        255 => Target::Leave,
        n => Target::To(n),
    }
}

// A fact whose passes begin at a place.
fn fact(constraint: Constraint, b: &[u8], at: usize) -> Fact
    requires { at + 4 ≤ length b.now }
    ensures { result ≡ record { constraint = constraint; first = two_at b.now at; last = two_at b.now (at + 2) } }
{
    Fact {
        constraint,
        first: two(b, at),
        last: two(b, at + 2),
    }
}

// Inlined into each walk over the records, where only the fields that are looked for are then read.
#[inline(always)]
fn fields_of(kind: Kind, b: &[u8]) -> Record
    requires { size_of kind ≤ length b.now }
    ensures { result ≡ fields kind b.now }
{
    match kind {
        Kind::Scope => Record::AddScope {
            least: two(b, 2),
            most: two(b, 4),
        },
        Kind::Block => Record::AddNode {
            scope: b[2],
            node: Node::Block {
                time: four(b, 3),
                stack: two(b, 7),
            },
        },
        Kind::Call => Record::AddNode {
            scope: b[2],
            node: Node::Call { scope: b[3] },
        },
        Kind::Edge => Record::AddEdge {
            scope: b[2],
            edge: Edge {
                from: b[3],
                to: target(b[4]),
                effect: i32::from_be_bytes([b[5], b[6], b[7], b[8]]),
            },
        },
        Kind::Bar => Record::AddFact {
            scope: b[2],
            fact: fact(Constraint::Bar(b[3]), b, 4),
        },
        Kind::Must => Record::AddFact {
            scope: b[2],
            fact: fact(Constraint::Must(b[3]), b, 4),
        },
        Kind::Pair => Record::AddFact {
            scope: b[2],
            fact: fact(Constraint::Pair(b[3], b[4]), b, 5),
        },
    }
}

// The record that the bytes begin with, and the bytes behind it.
#[inline(always)]
pub fn split_record(b: &[u8]) -> Result<(Record, &[u8]), Refusal>
    ensures { MatchResult result (λ p. (front_of b.now ≡ Ok p.0) × (p.1.now ≡ drop (one b.now 0) b.now)) (λ e. front_of b.now ≡ Err e) }
{
    if b.len() < 2 {
        return Err(Refusal::BadRecord);
    }
    let kind = Kind::try_from(b[1])?;
    let size = kind.size();
    if b[0] != size || b.len() < usize::from(size) {
        return Err(Refusal::BadRecord);
    }
    Ok((fields_of(kind, b), &b[usize::from(size)..]))
}
