// The scopes of a workbook, those in use and the spare ones: one more in all than a graph may have, so that a new one
// can be tried. All their memory is taken at the making, so those not in use wait here. A table may break the rules of graphs.
ghost use Rattle.std.specs.Prelude.{◌≡◌, ◌+◌, ◌≤◌, vec_len, vec_capacity};

use crate::sheet::Sheet;

pub mod answers;
pub mod changes;

#[derive(Drop)]
pub struct Tables {
    scopes: Vec<Sheet>,
    spare: Vec<Sheet>,
    ghost room: { 17 ≤ vec_capacity scopes },
    ghost spareroom: { 17 ≤ vec_capacity spare },
    ghost all: { vec_len scopes + vec_len spare ≡ 17 },
}
