// A rehearsal of a list of transfers, in whatever form they are lent.
#![tactic(auto)]

pub mod lists;

ghost use Rattle.std.specs.Prelude.{◌≡◌, length};
ghost use Rattle.answers.specs.Call.{first_refusal, told};
ghost use Rattle.answers.specs.Refused.{code, told_of};
ghost use Rattle.tables.specs.Sheet.{entities, lent_by};
ghost use Rattle.transfers.specs.Rehearse.{rehearsal_short, rehearsed_with};
ghost use Rattle.runs.specs.Inner.{tested_refusals, Cleared, Performs, RehearsesList, Runnable, Ran, Raisable, raised_by};

use answers::refused::{Refused, first_refused};
use answers::{Square, sizes};
use lists::TransferList;
use steps::Network;
use tables::LentSheet;
use transfers::Tally;

const MOST_TALLIED: u32 = 4294963199;

// Whether so many marks or so many verdict bytes are too few.
#[tactic(auto, unfolding(transfers::specs::Rehearse::rehearsal_short))]
fn few_lent(marks: usize, verdicts: usize) -> bool
    ensures { result ≡ rehearsal_short marks verdicts }
{
    marks < sizes::LEAST_MARKS || verdicts < sizes::LEAST_VERDICTS
}

// 1, 5, 11, 15 or 17 of a rehearsal with so many marks and verdict bytes.
fn check<L: TransferList>(
    sheet: LentSheet,
    list: L,
    marks: usize,
    verdicts: usize,
    tally: Tally,
) -> Result<(), Refused>
    ensures { code result ≡ first_refusal (tested_refusals (rehearsal_short marks verdicts) (L.over list) (L.ragged list) (lent_by sheet.entry) tally) }
{
    refusals::check_sheet(few_lent(marks, verdicts), list.is_over(), sheet)?;
    first_refused(&[
        (list.is_ragged(), Refused::RaggedList),
        (tally.applied > MOST_TALLIED, Refused::FullTally),
        (tally.outside > MOST_TALLIED, Refused::FullTally),
        (tally.barred > MOST_TALLIED, Refused::FullTally),
    ])
}

// Makes the transfers, one after the other, and counts them.
fn run<L: TransferList>(network: Network, list: L, marks: &mut [u32], verdicts: &mut [u8]) -> Tally
    requires { Runnable (entities network.counts) (length (L.transfers list)) marks.old verdicts.old }
    ensures { Ran network.entry.counts network.entry.channels.n network.entry.channels.bytes.now (L.transfers list) marks.old verdicts.old marks.new verdicts.new result }
{
    let mut counts = Tally::default();
    for k in 0..list.count() {
        steps::step_record(network, list.at(k), k, marks, verdicts, &mut counts);
    }
    counts
}

// Raises a tally by the counts of a rehearsal.
fn raise(tally: &mut Tally, counts: Tally)
    requires { Raisable counts tally.old }
    ensures { tally.new ≡ raised_by counts tally.old }
{
    tally.applied += counts.applied;
    tally.outside += counts.outside;
    tally.barred += counts.barred;
}

// Makes a rehearsal that nothing refuses, and tells the count applied. The tally is raised once.
fn perform<L: TransferList>(
    sheet: LentSheet,
    list: L,
    marks: &mut [u32],
    verdicts: &mut [u8],
    tally: &mut Tally,
) -> usize
    requires { Cleared (L.over list) (lent_by sheet) (length marks.old) (length verdicts.old) tally.old }
    ensures { Performs (lent_by sheet.entry) (L.transfers list) marks.old verdicts.old tally.old (rehearsed_with (told 0 result) marks.new verdicts.new tally.new) }
{
    let mut bytes = [0u8; sizes::LEAST_FLOW];
    channels::fill_channels(sheet, &mut bytes);
    let channels = Square {
        n: sheet.counts.entities(),
        bytes: &bytes,
    };
    let network = Network {
        counts: sheet.counts,
        channels,
    };
    let counts = run(network, list, marks, verdicts);
    raise(tally, counts);
    counts.applied as usize
}

// Rehearses a list of transfers.
pub fn rehearse_list<L: TransferList>(
    sheet: LentSheet,
    list: L,
    marks: &mut [u32],
    verdicts: &mut [u8],
    tally: &mut Tally,
) -> Result<usize, Refused>
    ensures { RehearsesList (L.over list) (L.ragged list) (L.transfers list) (lent_by sheet.entry) marks.old verdicts.old tally.old (rehearsed_with (told_of result) marks.new verdicts.new tally.new) }
{
    check(sheet, list, marks.len(), verdicts.len(), *tally)?;
    Ok(perform(sheet, list, marks, verdicts, tally))
}
