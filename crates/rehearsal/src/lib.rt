// The calls of a rehearsal, of flat bytes and of records.
#![tactic(auto)]

ghost use Rattle.std.specs.Prelude.{◌≡◌};
ghost use Rattle.answers.specs.Refused.{told_of};
ghost use Rattle.tables.specs.Sheet.{lent_by};
ghost use Rattle.transfers.specs.Rehearse.{new_tally};
ghost use Rattle.rehearsal.specs.Calls.{RehearsesFlat, RehearsesRecords, WithTally, WithLentTally};

use answers::refused::Refused;
use tables::LentSheet;
use transfers::{Tally, Transfer};

// A tally before its first rehearsal.
pub fn new_tally() -> Tally
    ensures { result ≡ new_tally }
{
    Tally::default()
}

// Rehearses flat bytes, three for each transfer. The tally is raised once.
pub fn rehearse(
    sheet: LentSheet,
    transfers: &[u8],
    marks: &mut [u32],
    verdicts: &mut [u8],
    tally: &mut Tally,
) -> Result<usize, Refused>
    ensures { WithLentTally RehearsesFlat (lent_by sheet.entry) transfers marks verdicts tally (told_of result) }
{
    runs::rehearse_list(sheet, transfers, marks, verdicts, tally)
}

// Rehearses a list of records, lent as they stand. The tally is raised once.
pub fn rehearse_records(
    sheet: LentSheet,
    records: &[Transfer],
    marks: &mut [u32],
    verdicts: &mut [u8],
    tally: &mut Tally,
) -> Result<usize, Refused>
    ensures { WithLentTally RehearsesRecords (lent_by sheet.entry) records marks verdicts tally (told_of result) }
{
    runs::rehearse_list(sheet, records, marks, verdicts, tally)
}

// Rehearses flat bytes, with the tally by value.
pub fn rehearse_tallied(
    sheet: LentSheet,
    transfers: &[u8],
    marks: &mut [u32],
    verdicts: &mut [u8],
    mut tally: Tally,
) -> (Result<usize, Refused>, Tally)
    ensures { WithTally RehearsesFlat (lent_by sheet.entry) transfers marks verdicts tally (told_of result.0, result.1) }
{
    let answer = rehearse(sheet, transfers, marks, verdicts, &mut tally);
    (answer, tally)
}
