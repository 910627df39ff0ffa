// A cost joined with itself a number of times.
ghost use Rattle.std.specs.Prelude.{◌≡◌};
ghost use Rattle.model.specs.Best.{power};
ghost use Rattle.search.specs.Powers.{Splits, Ends};

use model::cost::Cost;

// `times` copies of a cost, joined by repeated squaring.
pub fn power_of<C: Cost>(cost: C, times: u32) -> C
    ensures { result ≡ power C.measure cost times }
{
    let mut left = times;
    let mut square = cost;
    let mut sum = C::nothing();
    // by halving: no index is counted
    while left > 0 {
        if left % 2 == 1 {
            sum = sum.join(square);
        }
        square = square.join(square);
        left /= 2;
    }
    sum
}

// What holds of the powers of a cost under every measure.
pub fn power_laws<C: Cost>()
    ensures splits { Splits C.measure }
    ensures ends { Ends C.measure }
{}
