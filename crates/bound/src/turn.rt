// One range of passes after the other.
ghost use Rattle.std.specs.Prelude.{◌≡◌, ◌<◌, ◌≤◌, length, Some};
ghost use Rattle.plain.specs.Copies.{scope_of};
ghost use Rattle.bound.specs.Progress.{Stands};

use crate::costs::{better_of, joined_of, powers_of};
use crate::progress::Progress;
use crate::range::Range;
use crate::scope_search::ScopeSearch;
use model::cost::Cost;
use search::ending::Ending;
use search::lent::Table;
use search::values::EdgeValues;
use trail::groups::PassGroup;

// One range more.
pub fn turn<C: Cost, V: EdgeValues<C>>(
    search: &ScopeSearch<V>,
    progress: Progress<C>,
    front: C,
    table: &mut Table<C>,
) -> Progress<C>
    requires goes { progress.front ≡ Some front }
    requires more { progress.done < search.now.scope.now.most }
    requires sofar { Stands C.measure (scope_of search.now.scope.now) (V.EdgeValues.values search.now.values.now) progress }
    ensures further { progress.done < result.done }
    ensures sofar { Stands C.measure (scope_of search.now.scope.now) (V.EdgeValues.values search.now.values.now) result }
{
    // a pass is left, so one more fits
    prove!(progress.done < search.scope.most);
    let first = progress.done + 1;
    let last = search.scope.range_end(first);
    let on = search.costliest(first, Ending::Again, table);
    let off = search.costliest(first, Ending::Leave, table);
    let mut groups = progress.groups;
    let range = Range {
        first,
        last,
        whole: groups.len(),
        front,
        on,
        off,
    };
    let group = PassGroup {
        first,
        last,
        way: on.way,
    };
    groups.push(group).unwrap();
    let copies = powers_of(on.cost, u32::from(last - progress.done));
    Progress {
        done: last,
        front: joined_of(Some(front), copies),
        groups,
        best: better_of(progress.best, range.choice(search.scope.least)),
    }
}
