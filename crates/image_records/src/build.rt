// Images from records.
ghost use Rattle.std.specs.Prelude.{◌≡◌, ◌++◌, IfOk, OnOk};
ghost use Rattle.image_records.specs.Written.{two, with_record, with_records, headed};

use crate::record::Record;
use std::alloc::{AllocError, Global};

// Appends what a record begins with, and then a first and a last number of passes.
fn add_passes(bytes: &mut Vec<u8>, head: &[u8], first: u16, last: u16) -> Result<(), AllocError>
    ensures { OnOk result (bytes.new.items ≡ ((bytes.old.items ++ head.now) ++ two first) ++ two last) }
{
    bytes.extend_from_slice(head)?;
    bytes.extend_from_slice(&first.to_be_bytes())?;
    bytes.extend_from_slice(&last.to_be_bytes())
}

// Appends a record.
fn add(bytes: &mut Vec<u8>, item: Record) -> Result<(), AllocError>
    ensures { OnOk result (bytes.new.items ≡ with_record bytes.old.items item) }
{
    match item {
        Record::Scope(least, most) => add_passes(bytes, &[6, 1], least, most),
        Record::Block(scope, time, stack) => {
            bytes.extend_from_slice(&[9, 2, scope])?;
            bytes.extend_from_slice(&time.to_be_bytes())?;
            bytes.extend_from_slice(&stack.to_be_bytes())
        }
        Record::Call(scope, called) => bytes.extend_from_slice(&[4, 3, scope, called]),
        Record::Edge(scope, from, to, effect) => {
            bytes.extend_from_slice(&[9, 4, scope, from, to])?;
            bytes.extend_from_slice(&effect.to_be_bytes())
        }
        Record::Bar(scope, node, first, last) => {
            add_passes(bytes, &[8, 5, scope, node], first, last)
        }
        Record::Must(scope, node, first, last) => {
            add_passes(bytes, &[8, 6, scope, node], first, last)
        }
        Record::Pair(scope, node, other, first, last) => {
            add_passes(bytes, &[9, 7, scope, node, other], first, last)
        }
    }
}

// Appends records one after the other.
pub fn add_all(bytes: &mut Vec<u8>, records: &[Record]) -> Result<(), AllocError>
    ensures { OnOk result (bytes.new.items ≡ with_records bytes.old.items records.now) }
{
    for record in records {
        add(bytes, *record)?;
    }
    Ok(())
}

// The image with these bytes of records.
pub fn image(heap: Global, records: &[u8]) -> Result<Vec<u8>, AllocError>
    ensures { IfOk result (λ v. v.items ≡ headed records.now) }
{
    let len = u32::try_from(records.len().saturating_add(5)).unwrap_or(u32::MAX);
    let mut bytes = Vec::from_slice(heap, &[1])?;
    bytes.extend_from_slice(&len.to_be_bytes())?;
    bytes.extend_from_slice(records)?;
    Ok(bytes)
}
