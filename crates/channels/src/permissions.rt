// What the subjects of a sheet may do with its objects, and so between which entities there is a channel.
ghost use Rattle.std.specs.Prelude.{◌≡◌, ◌↔◌, ◌<◌, ◌≤◌, IsTrue, length};
ghost use Rattle.answers.specs.Sizes.{least_flow};
ghost use Rattle.answers.specs.Rows.{at, Mark, Row, Filled};
ghost use Rattle.tables.specs.Sheet.{entities, lent_by, sheet_in};
ghost use Rattle.tables.specs.Refusals.{Sized};
ghost use Rattle.access.specs.Channel.{Has, May, Assigned, Plain, Channel};
ghost use Rattle.channels.specs.Inner.{Lists};
ghost use Rattle.channels.specs.Mode.{mode_of};

use crate::roles::RoleList;
use tables::LentSheet;

const BOTH: u8 = 3;

// What is asked of a mode, with the mode that has this alone.
#[derive(Clone, Copy)]
pub enum Wanted {
    Read = 1,
    Write = 2,
}

// Whether a mode has what is wanted.
fn has(mode: u8, wanted: Wanted) -> bool
    ensures { IsTrue result ↔ Has mode (mode_of wanted) }
{
    mode == wanted as u8 || mode == BOTH
}

// A sheet's tables, and the roles of each subject, so that a pair is asked for these and for no others.
#[derive(Clone, Copy)]
pub struct Permissions<'a> {
    pub sheet: LentSheet<'a>,
    pub lists: &'a [RoleList],
    ghost sized: { Sized (lent_by sheet) },
    ghost long: { sheet.counts.subjects ≤ length lists.now },
    ghost listed: { Lists (lent_by sheet) lists.now },
}

impl<'a> Permissions<'a> {
    // Whether a role has the wanted mode on object o.
    fn grants(self, role: usize, o: usize, wanted: Wanted) -> bool
        requires { (role < self.sheet.counts.roles) × (o < self.sheet.counts.objects) }
        ensures { IsTrue result ↔ Has (at self.entry.sheet.permission.now self.entry.sheet.counts.objects role o) (mode_of wanted) }
    {
        has(
            self.sheet.permission[role * self.sheet.counts.objects + o],
            wanted,
        )
    }

    // Whether some role of subject s has the wanted mode on object o.
    fn may(self, s: usize, o: usize, wanted: Wanted) -> bool
        requires subject { s < self.sheet.counts.subjects }
        requires object { o < self.sheet.counts.objects }
        ensures { let t = sheet_in (lent_by self.entry.sheet) in IsTrue result ↔ May self.entry.sheet.counts (Assigned t) (Plain t) (mode_of wanted) s o }
    {
        self.lists[s]
            .roles()
            .iter()
            .any(|role| self.grants(*role as usize, o, wanted))
    }

    // Whether there is a channel from x to y.
    fn channel(self, x: usize, y: usize) -> bool
        requires { (x < entities self.sheet.counts) × (y < entities self.sheet.counts) }
        ensures { IsTrue result ↔ Channel (sheet_in (lent_by self.entry.sheet)) x y }
    {
        let subjects = self.sheet.counts.subjects;
        match (x < subjects, y < subjects) {
            (true, false) => self.may(x, y - subjects, Wanted::Write),
            (false, true) => self.may(y, x - subjects, Wanted::Read),
            (true, true) => false,
            (false, false) => false,
        }
    }

    // Writes the row of x.
    fn fill_row(self, x: usize, row: &mut [u8])
        requires { (x < entities self.sheet.counts) × (length row.old ≡ entities self.sheet.counts) }
        ensures { Row (entities self.entry.sheet.counts) (λ y byte. Mark (Channel (sheet_in (lent_by self.entry.sheet)) x y) byte) row.new }
    {
        for (y, byte) in row.iter_mut().enumerate() {
            *byte = u8::from(self.channel(x, y));
        }
    }

    // Writes the row of each entity in its own place of the table.
    pub fn fill_rows(self, channels: &mut [u8])
        requires { least_flow ≤ length channels.old }
        ensures { Filled (entities self.entry.sheet.counts) (Channel (sheet_in (lent_by self.entry.sheet))) channels.old channels.new }
    {
        let n = self.sheet.counts.entities();
        for x in 0..n {
            let start = x * n;
            self.fill_row(x, &mut channels[start..start + n]);
        }
    }
}
