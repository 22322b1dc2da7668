// One change at a time: one assignment byte or one permission byte.
#![tactic(auto)]

ghost use Rattle.std.specs.Prelude.{◌≡◌, ◌+◌, ◌*◌, ◌<◌, length, set};
ghost use Rattle.answers.specs.Call.{first_refusal};
ghost use Rattle.answers.specs.Refused.{code};
ghost use Rattle.tables.specs.Sheet.{lent, lent_by};
ghost use Rattle.change.specs.Change.{range_refusals, SetsAssignment, SetsPermission, change_refusals};

use answers::refused::{Refused, first_refused};
use tables::{Counts, LentSheet};

// A place in a table of `rows` rows of `columns` bytes, each at most `most`.
#[derive(Clone, Copy)]
struct Cell {
    rows: usize,
    columns: usize,
    most: u8,
    row: usize,
    column: usize,
}

impl Cell {
    // 6 of a byte to be set there.
    fn check(self, value: u8) -> Result<(), Refused>
        ensures { code result ≡ first_refusal (range_refusals self.rows self.columns self.most self.row self.column value) }
    {
        first_refused(&[
            (self.rows <= self.row, Refused::OutOfRange),
            (self.columns <= self.column, Refused::OutOfRange),
            (value > self.most, Refused::OutOfRange),
        ])
    }

    // Sets the byte there.
    fn set(self, table: &mut [u8], value: u8)
        requires { self.row * self.columns + self.column < length table.old }
        ensures { table.new ≡ set table.old (self.row * self.columns + self.column) value }
    {
        table[self.row * self.columns + self.column] = value;
    }
}

// 1, 5, 11 or 6 of a change of a byte.
fn check_change(sheet: LentSheet, cell: Cell, value: u8) -> Result<(), Refused>
    ensures { code result ≡ first_refusal (change_refusals (lent_by sheet.entry) cell.rows cell.columns cell.most cell.row cell.column value) }
{
    refusals::check_sheet(refusals::NO_OTHER, refusals::NO_LIST, sheet)?;
    cell.check(value)
}

// Sets whether subject `s` has role `r`. Refuses with 1, 5, 11 and 6, in this order, and then changes nothing.
pub fn set_assignment(
    counts: Counts,
    assignment: &mut [u8],
    permission: &[u8],
    s: usize,
    r: usize,
    value: u8,
) -> Result<(), Refused>
    ensures { SetsAssignment (lent counts assignment.old permission.now) s r value (code result, assignment.new) }
{
    let sheet = LentSheet {
        counts,
        assignment: &*assignment,
        permission,
    };
    let cell = Cell {
        rows: counts.subjects,
        columns: counts.roles,
        most: 1,
        row: s,
        column: r,
    };
    check_change(sheet, cell, value)?;
    cell.set(assignment, value);
    Ok(())
}

// Sets the mode that role `r` has on object `o`; 0 takes it away. Refuses as `set_assignment` does.
pub fn set_permission(
    counts: Counts,
    assignment: &[u8],
    permission: &mut [u8],
    r: usize,
    o: usize,
    mode: u8,
) -> Result<(), Refused>
    ensures { SetsPermission (lent counts assignment.now permission.old) r o mode (code result, permission.new) }
{
    let sheet = LentSheet {
        counts,
        assignment,
        permission: &*permission,
    };
    let cell = Cell {
        rows: counts.roles,
        columns: counts.objects,
        most: 3,
        row: r,
        column: o,
    };
    check_change(sheet, cell, mode)?;
    cell.set(permission, mode);
    Ok(())
}
