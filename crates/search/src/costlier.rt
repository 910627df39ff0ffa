// The costlier of two.
ghost use Rattle.std.specs.Prelude.{◌≡◌};
ghost use Rattle.search.specs.Found.{costlier_by};

use model::cost::Cost;

// Of two things with costs that may be absent the costlier: the first, unless the second alone has a cost or costs more.
pub fn costlier<C: Cost, X: Copy>(a: Option<C>, b: Option<C>, first: X, second: X) -> X
    ensures { result ≡ costlier_by C.measure a b first second }
{
    match (a, b) {
        (_, None) => first,
        (None, Some(_)) => second,
        (Some(a), Some(b)) => { if b.at_most(a) { first } else { second } }
    }
}
