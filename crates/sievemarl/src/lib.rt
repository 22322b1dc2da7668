// The face for C: numbers and byte buffers.
#![tactic(auto)]

ghost use Rattle.std.specs.Prelude.{◌≡◌, ◌<◌};
ghost use Rattle.tables.specs.Sheet.{lent, counts};
ghost use Rattle.sievemarl.specs.Packed.{packed};
ghost use Rattle.sievemarl.specs.ForC.{FillsForC, JudgesForC};

use answers::refused::answer_of;
use separations::Judged;
use tables::{Counts, LentSheet, Separations};

// What judging answers, as one number.
fn pack(j: Judged) -> u32
    requires { (j.position < 256) × (j.count < 256) }
    ensures { result ≡ packed j }
{
    let position = j.position as u32;
    let count = j.count as u32;
    j.answer as u32 + 256 * position + 65536 * count
}

// Fills the flow table, as `flow::fill` does, and returns its answer.
#[unsafe(no_mangle)]
pub extern "C" fn sievemarl_fill_flow(
    subjects: usize,
    objects: usize,
    roles: usize,
    assignment: &[u8],
    permission: &[u8],
    flow: &mut [u8],
) -> u32
    ensures { FillsForC (lent (counts subjects objects roles) assignment.now permission.now) flow.old (result, flow.new) }
{
    let sheet = LentSheet {
        counts: Counts {
            subjects,
            objects,
            roles,
        },
        assignment,
        permission,
    };
    let number = answer_of(flow::fill(sheet, flow));
    number as u32
}

// Judges the separations, as `verdict::judge` does, and returns answer + 256 x position + 65,536 x chain count.
#[unsafe(no_mangle)]
pub extern "C" fn sievemarl_judge(
    subjects: usize,
    objects: usize,
    roles: usize,
    assignment: &[u8],
    permission: &[u8],
    count: usize,
    separations: &[u8],
    chain: &mut [u8],
) -> u32
    ensures { JudgesForC (lent (counts subjects objects roles) assignment.now permission.now) count separations.now chain.old (result, chain.new) }
{
    let sheet = LentSheet {
        counts: Counts {
            subjects,
            objects,
            roles,
        },
        assignment,
        permission,
    };
    let separations = Separations {
        count,
        pairs: separations,
    };
    let judged = Judged::from(verdict::judge(sheet, separations, chain));
    pack(judged)
}
