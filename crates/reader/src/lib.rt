// The second pass over the text of a sheet: what an accepted text says goes into the lent tables.
#![tactic(auto)]

ghost use Rattle.std.specs.Prelude.{◌≡◌, ◌++◌, ◌≤◌, length, drop, replicate};
ghost use Rattle.frames.specs.Check.{start, Accepted, check, parsed_lines, frames_of};
ghost use Rattle.text.specs.Content.{content_of};
ghost use Rattle.reader.specs.Fill.{tables, at_entry, at_exit, LongTables, TablesFilled};
ghost use Rattle.reader.specs.Inner.{Passes, FrameStored};

use frames::{Frame, Passed};
use parsing::Lines;

// The first n bytes become 0.
fn clear(table: &mut [u8], n: usize)
    requires { n ≤ length table.old }
    ensures { table.new ≡ replicate n 0 ++ drop n table.old }
{
    table[..n].fill(0);
}

// What one frame says, after the lines of which k is known.
fn store_frame(
    k: Passed,
    f: Frame,
    assignment: &mut [u8],
    permission: &mut [u8],
    separations: &mut [u8],
)
    requires passes { Passes k f }
    requires long_tables { LongTables (tables assignment.old permission.old separations.old) }
    ensures { FrameStored k f (at_entry assignment permission separations) (at_exit assignment permission separations) }
{
    match f {
        Frame::Header(s, o, r) => {
            clear(assignment, s as usize * r as usize);
            clear(permission, r as usize * o as usize);
        }
        Frame::Assign(s, r) => assignment[s as usize * k.counts.roles + r as usize] = 1,
        Frame::Permit(r, o, m) => {
            permission[r as usize * k.counts.objects + o as usize] = m;
        }
        Frame::Separate(x, y) => {
            separations[2 * k.separations] = x;
            separations[2 * k.separations + 1] = y;
        }
        Frame::End(..) => {}
    }
}

// What an accepted text says, into the tables.
pub fn fill(text: &[u8], assignment: &mut [u8], permission: &mut [u8], separations: &mut [u8])
    requires text_value { check start (parsed_lines text.now) ≡ Accepted }
    requires long_tables { LongTables (tables assignment.old permission.old separations.old) }
    ensures { TablesFilled (content_of (frames_of (parsed_lines text.now))) (at_entry assignment permission separations) (at_exit assignment permission separations) }
{
    let lines = Lines { rest: text };
    let mut k = Passed::start();
    for line in lines {
        // each line of an accepted text is a frame
        let frame = line.unwrap();
        store_frame(k, frame, assignment, permission, separations);
        k = checking::state_after(k, frame);
    }
}
