// The shown chain, and the first broken separation.
#![tactic(auto)]

ghost use Rattle.std.specs.Prelude.{◌≡◌, ◌||◌};
ghost use Rattle.answers.specs.Sizes.{least_chain, least_separations};
ghost use Rattle.answers.specs.Rows.{shorter};
ghost use Rattle.answers.specs.Call.{first_refusal};
ghost use Rattle.answers.specs.Refused.{code, told_of};
ghost use Rattle.tables.specs.Sheet.{lent_by, sheet_in};
ghost use Rattle.chains.specs.Shown.{ShownChain};
ghost use Rattle.access.specs.Channel.{Channel};
ghost use Rattle.separations.specs.Judgement.{judged_found, judged_of};
ghost use Rattle.verdict.specs.Chain.{chain_refusals, Shows};
ghost use Rattle.verdict.specs.Judge.{judge_refusals, Judges};
ghost use Rattle.verdict.specs.Inner.{Showable, Judgeable, SheetVerdict};

use answers::refused::{Refused, first_refused};
use answers::{Square, sizes};
use separations::Breach;
use tables::{LentSheet, Separations};

// 1, 5, 11 or 10 of a call that asks for a chain.
fn check_chain(sheet: LentSheet, x: usize, y: usize, chain: &[u8]) -> Result<(), Refused>
    ensures { code result ≡ first_refusal (chain_refusals (lent_by sheet.entry) x y chain.now) }
{
    refusals::check_sheet(chain.len() < sizes::LEAST_CHAIN, refusals::NO_LIST, sheet)?;
    let n = sheet.counts.entities();
    first_refused(&[(n <= x, Refused::NoEntity), (n <= y, Refused::NoEntity)])
}

// Writes the chain from x to y of a sheet whose tables were not refused, and returns its count of entities, if there is one.
fn show(sheet: LentSheet, x: usize, y: usize, chain: &mut [u8]) -> Option<usize>
    requires { Showable (lent_by sheet) x y chain.old }
    ensures { ShownChain (Channel (sheet_in (lent_by sheet.entry))) x y chain.old chain.new result }
{
    let n = sheet.counts.entities();
    let mut channels = [0; sizes::LEAST_FLOW];
    channels::fill_channels(sheet, &mut channels);
    let channels = Square {
        n,
        bytes: &channels,
    };
    chains::show_chain(channels, x, y, chain)
}

// Writes the chain from x to y: the shortest, and of the shortest the smallest. Tells its count of entities. Refuses with 1, 5, 11, 10
// and, where there is no chain, 13, in this order, and then changes nothing.
pub fn chain(sheet: LentSheet, x: usize, y: usize, chain: &mut [u8]) -> Result<usize, Refused>
    ensures { Shows (lent_by sheet.entry) x y chain.old (told_of result, chain.new) }
{
    check_chain(sheet, x, y, chain)?;
    show(sheet, x, y, chain).ok_or(Refused::NoChain)
}

// ---- the first broken separation

// Whether one of the other buffers of a call that judges is too short.
fn some_short(pairs: &[u8], chain: &[u8]) -> bool
    ensures { result ≡ (shorter pairs.now least_separations || shorter chain.now least_chain) }
{
    pairs.len() < sizes::LEAST_SEPARATIONS || chain.len() < sizes::LEAST_CHAIN
}

// 1, 5, 11, 8, 6 or 7 of a call that judges.
fn check_judge(sheet: LentSheet, separations: Separations, chain: &[u8]) -> Result<(), Refused>
    ensures { code result ≡ first_refusal (judge_refusals (lent_by sheet.entry) separations.entry.count separations.entry.pairs.now chain.now) }
{
    refusals::check_sheet(
        some_short(separations.pairs, chain),
        refusals::NO_LIST,
        sheet,
    )?;
    refusals::check_separations(sheet.counts.entities(), separations)
}

// Judges the separations of a sheet that was not refused. The channel table is filled once, for the search and for the chain.
fn judge_sheet(sheet: LentSheet, separations: Separations, chain: &mut [u8]) -> Option<Breach>
    requires { Judgeable (lent_by sheet) separations.count separations.pairs.now chain.old }
    ensures { SheetVerdict (lent_by sheet.entry) separations.entry.count separations.entry.pairs.now chain.old (judged_found result, chain.new) }
{
    let n = sheet.counts.entities();
    let mut channels = [0; sizes::LEAST_FLOW];
    channels::fill_channels(sheet, &mut channels);
    let channels = Square {
        n,
        bytes: &channels,
    };
    judging::judge_channels(channels, separations, chain)
}

// Judges the separations in list order. The first broken one is found, with its position from 0 and its chain; where all hold there is
// none, and the chain buffer is as it was. Refuses with 1, 5, 11, 8 and, of the first faulty separation, 6 or 7, in this order, and then
// changes nothing.
pub fn judge(
    sheet: LentSheet,
    separations: Separations,
    chain: &mut [u8],
) -> Result<Option<Breach>, Refused>
    ensures { Judges (lent_by sheet.entry) separations.entry.count separations.entry.pairs.now chain.old (judged_of result, chain.new) }
{
    check_judge(sheet, separations, chain)?;
    Ok(judge_sheet(sheet, separations, chain))
}
