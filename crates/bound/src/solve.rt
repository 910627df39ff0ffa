// The bound of a scope.
ghost use Rattle.std.specs.Prelude.{◌≡◌, ◌<◌, ◌≤◌, ◌++◌, length, take, MatchBool};
ghost use Rattle.plain.specs.Copies.{scope_of};
ghost use Rattle.plain.specs.Ranges.{Proper};
ghost use Rattle.search.specs.Ways.{way_edges};
ghost use Rattle.trail.specs.Groups.{groups_of};
ghost use Rattle.bound.specs.Choices.{last_groups};
ghost use Rattle.bound.specs.Progress.{Stands};
ghost use Rattle.bound.specs.Solves.{Ended, Solves};

use crate::choice::Choice;
use crate::progress::Progress;
use crate::scope_search::ScopeSearch;
use crate::solution::{Solution, Unfit};
use crate::turn::turn;
use model::cost::Cost;
use plain::plain_scope::PlainScope;
use row::row::Row;
use search::lent::Table;
use search::values::EdgeValues;
use trail::groups::{Groups, PassGroup};

// The groups of the run that a choice stands for.
fn groups_of<C: Cost>(groups: Groups, choice: Choice<C>) -> Groups
    requires { choice.whole ≤ 8 }
    ensures { groups_of result ≡ take choice.whole (groups_of groups) ++ last_groups choice.first choice.passes (way_edges choice.on) (way_edges choice.off) }
{
    let mut all = groups;
    all.truncate(choice.whole);
    if choice.first < choice.passes {
        let before = PassGroup {
            first: choice.first,
            last: choice.passes - 1,
            way: choice.on,
        };
        all.push(before).unwrap();
    }
    let last = PassGroup {
        first: choice.passes,
        last: choice.passes,
        way: choice.off,
    };
    all.push(last).unwrap();
    all
}

// All ranges, or as many as can be gone on to.
fn search_ranges<C: Cost, V: EdgeValues<C>>(
    search: &ScopeSearch<V>,
    table: &mut Table<C>,
) -> Progress<C>
    ensures sofar { Stands C.measure (scope_of search.now.scope.now) (V.EdgeValues.values search.now.values.now) result }
    ensures ended { Ended (scope_of search.now.scope.now) result }
{
    let blank = PassGroup {
        first: 0,
        last: 0,
        way: Row::new(0),
    };
    let mut progress = Progress {
        done: 0,
        front: Some(C::nothing()),
        groups: Row::new(blank),
        best: None,
    };
    // from range to range, not from pass to pass
    while progress.done < search.scope.most {
        let Some(front) = progress.front else {
            return progress;
        };
        progress = turn(search, progress, front, table);
    }
    progress
}

// Does each fact begin no later than it ends?
fn is_proper(scope: &PlainScope) -> bool
    ensures { MatchBool result (Proper (scope_of scope.now).facts) (Proper (scope_of scope.now).facts → ⊥) }
{
    let facts = scope.flow.facts.as_slice();
    facts.iter().all(|fact| fact.first <= fact.last)
}

// The bound of a scope by the values of its edges, and a run that attains it, if the scope has a run.
pub fn solve<C: Cost, V: EdgeValues<C>>(
    scope: &PlainScope,
    values: &V,
    table: &mut [C],
) -> Result<Option<Solution<C>>, Unfit>
    ensures { Solves C.measure (scope_of scope.now) (V.EdgeValues.values values.now) (length table.old) result }
{
    if table.len() < 32 || scope.least == 0 || !is_proper(scope) {
        return Err(Unfit);
    }
    let search = ScopeSearch { scope, values };
    let mut table = Table { costs: table };
    let Progress { best, groups, .. } = search_ranges(&search, &mut table);
    // a match, in which what is known of the choice is at hand
    match best {
        None => Ok(None),
        Some(choice) => Ok(Some(Solution {
            cost: choice.cost,
            passes: choice.passes,
            groups: groups_of(groups, choice),
        })),
    }
}
