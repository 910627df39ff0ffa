// Where a range of passes ends: the passes of a range have the same facts in force.
ghost use Rattle.std.specs.Prelude.{◌≡◌};
ghost use Rattle.plain.specs.Copies.{scope_of};
ghost use Rattle.plain.specs.Ranges.{RangeEnds, cut_by};

use crate::plain_scope::PlainScope;
use model::graph::Fact;

// The last pass up to `end` before the fact begins or, where it is in force in pass `first`, ends.
fn cut(fact: Fact, first: u16, end: u16) -> u16
    ensures { result ≡ cut_by fact first end }
{
    if first < fact.first {
        end.min(fact.first - 1)
    } else if first <= fact.last {
        end.min(fact.last)
    } else {
        end
    }
}

impl PlainScope {
    // The last pass of the range that holds pass `first`.
    pub fn range_end(&self, first: u16) -> u16
        ensures { RangeEnds (scope_of self.now) first result }
    {
        let mut end = self.most;
        for fact in self.flow.facts.as_slice() {
            end = cut(*fact, first, end);
        }
        end
    }
}
