// A workbook: tables whose graph keeps every rule of graphs but that there is a scope.
ghost use Rattle.model.specs.Rules.{KeepsFrom};
ghost use Rattle.workbook.specs.Tables.{graph_of};

use crate::tables::Tables;

pub mod answers;
pub mod calls;
pub mod edits;
mod trying;

#[derive(Drop)]
pub struct Workbook {
    tables: Tables,
    ghost kept: { KeepsFrom 22 (graph_of tables) },
}
