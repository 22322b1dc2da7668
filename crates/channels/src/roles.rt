// The roles of one subject.
ghost use Rattle.std.specs.Prelude.{◌≡◌, ◌≤◌, ◌<◌};
ghost use Rattle.answers.specs.Sizes.{most_roles};
ghost use Rattle.tables.specs.Sheet.{lent_by};
ghost use Rattle.tables.specs.Refusals.{Sized};
ghost use Rattle.channels.specs.Inner.{on_list, RolesOf, Lists};

use answers::sizes;
use tables::LentSheet;

const ASSIGNED: u8 = 1;

// So many roles, ascending, at the front of their places.
#[derive(Clone, Copy)]
pub struct RoleList {
    pub places: [u8; sizes::MOST_ROLES],
    pub count: usize,
}

impl RoleList {
    pub const EMPTY: RoleList = RoleList {
        places: [0; sizes::MOST_ROLES],
        count: 0,
    };

    pub fn roles(&self) -> &[u8]
        requires { self.now.count ≤ most_roles }
        ensures { result.now ≡ on_list self.now }
    {
        &self.places[..self.count]
    }

    // The roles that subject s has.
    pub fn of(sheet: LentSheet, s: usize) -> RoleList
        requires sized { Sized (lent_by sheet) }
        requires subject { s < sheet.counts.subjects }
        ensures { RolesOf (lent_by sheet.entry) s result }
    {
        let base = s * sheet.counts.roles;
        let mut places = [0; sizes::MOST_ROLES];
        let mut count = 0;
        for role in 0..sheet.counts.roles {
            let assigned = sheet.assignment[base + role] == ASSIGNED;
            if assigned {
                places[count] = role as u8;
                count += 1;
            }
        }
        RoleList { places, count }
    }
}

// Lists the roles of each subject.
pub fn list_roles(sheet: LentSheet, lists: &mut [RoleList; sizes::MOST_SUBJECTS])
    requires { Sized (lent_by sheet) }
    ensures { Lists (lent_by sheet.entry) lists.new }
{
    for s in 0..sheet.counts.subjects {
        lists[s] = RoleList::of(sheet, s);
    }
}
