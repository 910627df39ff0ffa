// A search for the bound of a scope.
ghost use Rattle.std.specs.Prelude.{◌≤◌};
ghost use Rattle.plain.specs.Copies.{scope_of};
ghost use Rattle.plain.specs.Ranges.{Proper};
ghost use Rattle.search.specs.Found.{IsCostliest};

use model::cost::Cost;
use plain::plain_scope::PlainScope;
use search::ending::Ending;
use search::found::Costliest;
use search::lent::Table;
use search::values::EdgeValues;

// A scope that is fit to be searched, and what its edges cost.
#[derive(Drop)]
pub struct ScopeSearch<'a, 'b, V> {
    pub scope: &'a PlainScope,
    pub values: &'b V,
    ghost some: { 1 ≤ scope.now.least },
    ghost proper: { Proper (scope_of scope.now).facts },
}

impl<'a, 'b, V> ScopeSearch<'a, 'b, V> {
    // The costliest pass of this number with this ending.
    pub fn costliest<C: Cost>(
        &self,
        pass: u16,
        ending: Ending,
        table: &mut Table<C>,
    ) -> Costliest<C>
    where
        V: EdgeValues<C>,
        ensures { IsCostliest C.measure (V.EdgeValues.values self.now.values.now) (scope_of self.now.scope.now).edges (scope_of self.now.scope.now).facts pass ending result }
    {
        let ScopeSearch { scope, values, .. } = *self;
        scope
            .flow
            .costliest(values, pass, ending, table.costs)
            .unwrap()
    }
}
