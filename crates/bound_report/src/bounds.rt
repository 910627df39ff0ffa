// The bounds of a graph under both measures.
ghost use Rattle.std.specs.Prelude.{Some};
ghost use Rattle.bound_report.specs.Text.{bounds_text_lem};

use measures::cycles::Cycles;
use measures::stack::Stack;
use std::fmt;

// The bounds of scope 0, and the passes of the run in the cycles trail of each scope: 0 where it has none, as the text says.
#[derive(Drop)]
pub struct Bounds {
    pub cycles: Cycles,
    pub stack: Stack,
    pub passes: Vec<u16>,
}

// A line for each measure and for each scope.
impl fmt::Display for Bounds {
    ghost output = { λ b. Some (bounds_text_lem b) };

    fn fmt<W: fmt::Write>(&self, f: &mut fmt::Formatter<W>) -> fmt::Result {
        let cycles = self.cycles;
        let stack = self.stack;
        write!(f, "{cycles}\n{stack}\n")?;
        for (scope, passes) in self.passes.iter().enumerate() {
            writeln!(f, "scope {scope} passes {passes}")?;
        }
        Ok(())
    }
}
