// What using an edge costs.
ghost use Rattle.std.specs.Prelude.{◌≡◌, ℕ, Option};

use model::cost::Cost;

// The values of the edges of a scope, by their numbers; an edge without a value cannot be used.
pub trait EdgeValues<C: Cost> {
    ghost values: { Self → ℕ → Option C };

    fn value(&self, edge: usize) -> Option<C>
        ensures { result ≡ values self.now edge };
}
