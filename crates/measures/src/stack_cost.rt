// The stack as a cost measure.
ghost use Rattle.measures.specs.Meanings.{stack};
ghost use Rattle.measures.specs.Kept.{stack_laws};

use crate::stack::Stack;
use model::cost::Cost;

impl Cost for Stack {
    ghost measure = { stack };

    ghost laws = { stack_laws };

    fn nothing() -> Stack {
        Stack { bytes: 0 }
    }

    fn of(weight: u32, stack: u16) -> Stack {
        Stack { bytes: stack }
    }

    fn join(self, other: Stack) -> Stack {
        Stack {
            bytes: self.bytes.max(other.bytes),
        }
    }

    fn at_most(self, other: Stack) -> bool {
        self.bytes <= other.bytes
    }
}
