// The lines of a section, and writing them one after the other: their kinds are numbers, for C. Each call needs room of
// its own and says where it ends; a writer with the table and the place in it would say both for each call too.
ghost use Rattle.std.specs.Prelude.{◌≡◌, ◌+◌, ◌-◌, ◌≤◌, [], ◌∷◌, length, replicate};
ghost use Rattle.std.specs.List.{slice_get};
ghost use Rattle.model.specs.Trail.{line, called, way_lines, group_lines};
ghost use Rattle.search.specs.Ways.{way_edges};
ghost use Rattle.plain.specs.Copies.{scope_of};
ghost use Rattle.trail.specs.Groups.{group_of, groups_of};
ghost use Rattle.trail.specs.Sections.{written};

use crate::groups::{Groups, PassGroup};
use model::trail::Line;
use plain::plain_scope::PlainScope;
use search::way::Way;

// The line at the head of a section.
pub fn head_line(passes: u16, groups: &Groups) -> Line
    ensures { result ≡ line 1 passes (length (groups_of groups.now)) }
{
    Line {
        kind: 1,
        a: passes,
        b: groups.len() as u16,
    }
}

// The line of a group.
pub fn group_line(group: &PassGroup) -> Line
    ensures { result ≡ line 2 group.now.first group.now.last }
{
    Line {
        kind: 2,
        a: group.first,
        b: group.last,
    }
}

// The line of an edge.
pub fn edge_line(scope: &PlainScope, edge: u8) -> Line
    ensures { result ≡ line 3 edge (called (scope_of scope.now) (slice_get (scope_of scope.now).edges edge)) }
{
    Line {
        kind: 3,
        a: u16::from(edge),
        b: scope.called(edge).map_or(0, |called| u16::from(called) + 1),
    }
}

// A line that shows nothing.
pub fn zero_line() -> Line
    ensures { result ≡ line 0 0 0 }
{
    Line::default()
}

// Writes the lines of a way from `at` on, and says where they end.
pub fn write_way(trail: &mut [Line], at: usize, scope: &PlainScope, way: &Way) -> usize
    requires { at + length (way_edges way.now) ≤ length trail.old }
    ensures lines { trail.new ≡ written trail.old at (way_lines (scope_of scope.now) (way_edges way.now)) }
    ensures end { result ≡ at + length (way_edges way.now) }
{
    for (n, edge) in way.as_slice().iter().enumerate() {
        trail[at + n] = edge_line(scope, *edge);
    }
    at + way.len()
}

// Writes the lines of a group from `at` on, and says where they end.
pub fn write_group(trail: &mut [Line], at: usize, scope: &PlainScope, group: &PassGroup) -> usize
    requires { at + length (group_lines (scope_of scope.now) (group_of group.now ∷ [])) ≤ length trail.old }
    ensures lines { trail.new ≡ written trail.old at (group_lines (scope_of scope.now) (group_of group.now ∷ [])) }
    ensures end { result ≡ at + length (group_lines (scope_of scope.now) (group_of group.now ∷ [])) }
{
    trail[at] = group_line(group);
    write_way(trail, at + 1, scope, &group.way)
}

// Writes the lines of the groups from `at` on, and says where they end.
pub fn write_groups(trail: &mut [Line], at: usize, scope: &PlainScope, groups: &Groups) -> usize
    requires { at + 330 ≤ length trail.old }
    ensures lines { trail.new ≡ written trail.old at (group_lines (scope_of scope.now) (groups_of groups.now)) }
    ensures end { result ≡ at + length (group_lines (scope_of scope.now) (groups_of groups.now)) }
{
    let mut end = at;
    for group in groups.as_slice() {
        end = write_group(trail, end, scope, group);
    }
    end
}

// Clears the lines from `at` on up to `end`.
pub fn write_zeros(trail: &mut [Line], at: usize, end: usize)
    requires { (at ≤ end) × (end ≤ length trail.old) }
    ensures { trail.new ≡ written trail.old at (replicate (end - at) (line 0 0 0)) }
{
    trail[at..end].fill(zero_line());
}
