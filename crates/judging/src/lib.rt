// The first broken separation and its chain, by any table of channels.
#![tactic(auto)]

ghost use Rattle.std.specs.Prelude.{◌≡◌, ◌+◌, ◌*◌, ◌≤◌, ◌<◌, length};
ghost use Rattle.answers.specs.Rows.{Bytes};
ghost use Rattle.rows.specs.Written.{FlowRow};
ghost use Rattle.chains.specs.Distance.{Smallest};
ghost use Rattle.separations.specs.Judgement.{Broken, judged_found, Judgement};
ghost use Rattle.judging.specs.Inner.{HeldRow, Searchable};

use answers::Square;
use answers::sizes::MOST_ENTITIES;
use separations::Breach;
use tables::Separations;

// Writes the row of x, unless it is the row that the buffer holds.
fn hold_row(channels: Square, held: Option<usize>, x: usize, row: &mut [u8])
    requires { (x < channels.n) × HeldRow channels.n (Bytes channels.n channels.bytes.now) held row.old }
    ensures { FlowRow channels.entry.n (Bytes channels.entry.n channels.entry.bytes.now) x row.new }
{
    if held != Some(x) {
        rows::fill_row(channels, x, row);
    }
}

// The position of the first broken separation. Separations ascend, so each first entity has its row written once.
fn first_broken(channels: Square, separations: Separations) -> Option<usize>
    requires { Searchable channels.n separations.count separations.pairs.now }
    ensures { Smallest (λ i. Broken (Bytes channels.entry.n channels.entry.bytes.now) separations.entry.pairs.now i) separations.entry.count result }
{
    let mut places = [0; MOST_ENTITIES];
    let row = &mut places[..channels.n];
    let mut held = None;
    for i in 0..separations.count {
        let (x, y) = separations.pair(i);
        hold_row(channels, held, x as usize, row);
        held = Some(x as usize);
        if row[y as usize] == 1 {
            return Some(i);
        }
    }
    None
}

// Judges the separations over a channel table, and writes the chain of the first broken one.
pub fn judge_channels(
    channels: Square,
    separations: Separations,
    chain: &mut [u8],
) -> Option<Breach>
    requires { Searchable channels.n separations.count separations.pairs.now × (channels.n ≤ length chain.old) }
    ensures { Judgement (Bytes channels.entry.n channels.entry.bytes.now) separations.entry.count separations.entry.pairs.now chain.old (judged_found result, chain.new) }
{
    let position = first_broken(channels, separations)?;
    let (x, y) = separations.pair(position);
    // a broken separation has a chain
    let count = chains::show_chain(channels, x as usize, y as usize, chain).unwrap();
    Some(Breach { position, count })
}
