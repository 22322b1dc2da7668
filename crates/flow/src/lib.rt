// The flow table of a sheet.
#![tactic(auto)]

ghost use Rattle.answers.specs.Refused.{code};
ghost use Rattle.tables.specs.Sheet.{lent_by, sheet_in};
ghost use Rattle.channels.specs.Inner.{Fillable};
ghost use Rattle.flow.specs.Fill.{FlowFilled, Fills};

use answers::refused::Refused;
use answers::{Square, sizes};
use tables::LentSheet;

// Writes the flow table of a sheet whose tables were not refused. No lent buffer serves as scratch: the channels stand in a local table.
fn close_channels(sheet: LentSheet, flow: &mut [u8])
    requires { Fillable (lent_by sheet) flow.old }
    ensures { FlowFilled (sheet_in (lent_by sheet.entry)) flow.old flow.new }
{
    let n = sheet.counts.entities();
    let mut channels = [0; sizes::LEAST_FLOW];
    channels::fill_channels(sheet, &mut channels);
    let channels = Square {
        n,
        bytes: &channels,
    };
    rows::fill_rows(channels, flow);
}

// Writes the flow table of a sheet: the byte at x * N + y is 1 if x flows to y, and 0 if not. Refuses with 1, 5 and 11, in this order,
// and then changes nothing.
pub fn fill(sheet: LentSheet, flow: &mut [u8]) -> Result<(), Refused>
    ensures { Fills (lent_by sheet.entry) flow.old (code result, flow.new) }
{
    refusals::check_sheet(flow.len() < sizes::LEAST_FLOW, refusals::NO_LIST, sheet)?;
    close_channels(sheet, flow);
    Ok(())
}
