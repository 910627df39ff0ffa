// Cycles as a cost measure.
ghost use Rattle.std.specs.Prelude.{◌≡◌, ◌+◌};
ghost use Rattle.measures.specs.Meanings.{cycles, that_many, up_to_most};
ghost use Rattle.measures.specs.Kept.{cycles_laws};

use crate::cycles::Cycles;
use model::cost::Cost;

fn counted(count: u64) -> Cycles
    ensures { result ≡ that_many count }
{
    Cycles { count }
}

// The smaller of the sum and the greatest count.
fn capped_sum(a: u64, b: u64) -> u64
    ensures { result ≡ up_to_most (a + b) }
{
    a.saturating_add(b)
}

impl Cost for Cycles {
    ghost measure = { cycles };

    ghost laws = { cycles_laws };

    fn nothing() -> Cycles {
        counted(0)
    }

    fn of(weight: u32, stack: u16) -> Cycles {
        counted(u64::from(weight))
    }

    fn join(self, other: Cycles) -> Cycles {
        counted(capped_sum(self.count, other.count))
    }

    fn at_most(self, other: Cycles) -> bool {
        self.count <= other.count
    }
}
