// The channel table of a sheet.
#![tactic(auto)]

mod permissions;
mod roles;

ghost use Rattle.tables.specs.Sheet.{entities, lent_by, sheet_in};
ghost use Rattle.answers.specs.Rows.{Filled};
ghost use Rattle.access.specs.Channel.{Channel};
ghost use Rattle.channels.specs.Inner.{Fillable};

use answers::sizes;
use permissions::Permissions;
use roles::RoleList;
use tables::LentSheet;

// Writes the channel table of a sheet: the byte at x * N + y is 1 where there is a channel from x to y, and 0 where there is none.
pub fn fill_channels(sheet: LentSheet, channels: &mut [u8])
    requires { Fillable (lent_by sheet) channels.old }
    ensures { Filled (entities sheet.entry.counts) (Channel (sheet_in (lent_by sheet.entry))) channels.old channels.new }
{
    let mut lists = [RoleList::EMPTY; sizes::MOST_SUBJECTS];
    roles::list_roles(sheet, &mut lists);
    let permissions = Permissions {
        sheet,
        lists: &lists,
    };
    permissions.fill_rows(channels);
}
