// Costs that may be absent: joined, repeated and compared.
ghost use Rattle.std.specs.Prelude.{◌≡◌, Some};
ghost use Rattle.model.specs.Best.{joined};
ghost use Rattle.model.specs.Counts.{powers, spread};
ghost use Rattle.bound.specs.Choices.{better_choice};

use crate::choice::Choice;
use model::cost::Cost;
use search::costlier::costlier;
use search::power::power_of;

// Both in their order, absent where one is.
pub fn joined_of<C: Cost>(a: Option<C>, b: Option<C>) -> Option<C>
    ensures { result ≡ joined C.measure a b }
{
    Some(a?.join(b?))
}

// So many copies of a cost that may be absent: no copies cost nothing.
pub fn powers_of<C: Cost>(cost: Option<C>, times: u32) -> Option<C>
    ensures { result ≡ powers C.measure cost times }
{
    if times == 0 {
        return Some(C::nothing());
    }
    Some(power_of(cost?, times))
}

// What comes before, so many copies, and what comes last.
pub fn spread_of<C: Cost>(front: C, on: Option<C>, off: Option<C>, times: u32) -> Option<C>
    ensures { result ≡ spread C.measure (Some front) on off times }
{
    Some(front.join(powers_of(on, times)?).join(off?))
}

// The costlier of two choices, the second if they cost the same, or the one that is there.
pub fn better_of<C: Cost>(a: Option<Choice<C>>, b: Option<Choice<C>>) -> Option<Choice<C>>
    ensures { result ≡ better_choice C.measure a b }
{
    let first = a.map(|choice| choice.cost);
    let second = b.map(|choice| choice.cost);
    costlier(second, first, b, a)
}
