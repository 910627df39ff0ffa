// Writing and clearing a section of the trail table, 331 lines for each scope.
ghost use Rattle.std.specs.Prelude.{◌≡◌, ◌+◌, ◌*◌, ◌^◌, ◌<◌, ◌≤◌, length, replicate, if◌then◌else◌, nat_le};
ghost use Rattle.model.specs.Trail.{line, section_lines, padded, size};
ghost use Rattle.plain.specs.Copies.{scope_of};
ghost use Rattle.trail.specs.Groups.{groups_of};
ghost use Rattle.trail.specs.Sections.{written};

use crate::groups::Groups;
use crate::lines::{head_line, write_groups, write_zeros};
use model::trail::{Line, SECTION};
use plain::plain_scope::PlainScope;

// Whether a table of so many lines has the section of this number.
fn has_section(lines: usize, number: usize) -> bool
    ensures { result ≡ nat_le (size * (number + 1)) lines }
{
    number < lines / SECTION
}

// Where a section ends that begins at `at`.
fn section_end(at: usize) -> usize
    requires { at + size < 2 ^ 64 }
    ensures { result ≡ at + size }
{
    at + SECTION
}

// Writes the section that begins at `at`.
fn write_lines(trail: &mut [Line], at: usize, scope: &PlainScope, passes: u16, groups: &Groups)
    requires { at + size ≤ length trail.old }
    ensures { trail.new ≡ written trail.old at (padded (section_lines (scope_of scope.now) passes (groups_of groups.now))) }
{
    trail[at] = head_line(passes, groups);
    let from = write_groups(trail, at + 1, scope, groups);
    write_zeros(trail, from, section_end(at));
}

// Writes the section of this number: the number of passes, and the groups with their ways, which are in this scope.
// It says whether the table has such a section, and leaves all else in the table as it was. That is a yes or no with no
// value beside: a Result would be no plainer.
pub fn write_section(
    trail: &mut [Line],
    number: usize,
    scope: &PlainScope,
    passes: u16,
    groups: &Groups,
) -> bool
    ensures fits { result ≡ nat_le (size * (number + 1)) (length trail.old) }
    ensures table { trail.new ≡ (if result then written trail.old (size * number) (padded (section_lines (scope_of scope.now) passes (groups_of groups.now))) else trail.old) }
{
    if has_section(trail.len(), number) {
        write_lines(trail, SECTION * number, scope, passes, groups);
        true
    } else {
        false
    }
}

// Clears the section of this number, likewise.
pub fn clear_section(trail: &mut [Line], number: usize) -> bool
    ensures fits { result ≡ nat_le (size * (number + 1)) (length trail.old) }
    ensures table { trail.new ≡ (if result then written trail.old (size * number) (replicate size (line 0 0 0)) else trail.old) }
{
    if has_section(trail.len(), number) {
        let at = SECTION * number;
        write_zeros(trail, at, section_end(at));
        true
    } else {
        false
    }
}
