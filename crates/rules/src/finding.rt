// The broken rule of the smallest number among several findings.
ghost use Rattle.std.specs.Prelude.{◌≡◌, ℕ, Option};
ghost use Rattle.model.specs.declared.refusal.Refusal.{Refusal};
ghost use Rattle.rules.specs.Faults.{lower, lowest};

use model::refusal::Refusal;

// Of two findings the refusal of the smaller number; either may be none.
pub fn lower(a: Option<Refusal>, b: Option<Refusal>) -> Option<Refusal>
    ensures { result ≡ lower a b }
{
    match (a, b) {
        (Some(x), Some(y)) => Some(x.min(y)),
        _ => a.or(b),
    }
}

// The lowest of the first findings, by their number.
pub fn lowest_of<F: Fn(usize) -> Option<Refusal>>(count: usize, finding: F) -> Option<Refusal>
    requires { F.IsAlwaysCallable finding }
    ensures { (f : ℕ → Option Refusal) → ((n : ℕ) (r : Option Refusal) → F.post finding n r → r ≡ f n) → result ≡ lowest f count }
{
    (0..count).map(finding).fold(None, lower)
}
