// One transfer made on marks: what it comes to, the move, its verdict byte and the counts.
#![tactic(auto)]

ghost use Rattle.std.specs.Prelude.{◌≡◌, ◌≤◌, ◌<◌, length};
ghost use Rattle.answers.specs.Rows.{Bytes};
ghost use Rattle.answers.specs.Sizes.{most_subjects, most_objects};
ghost use Rattle.tables.specs.Sheet.{entities};
ghost use Rattle.transfers.specs.Acts.{verdict_byte, acted};
ghost use Rattle.transfers.specs.Transfers.{transfer, Comes};
ghost use Rattle.steps.specs.Inner.{Tried, MovesWithin, OneMore, noted, state, Steppable, Stepped};

use answers::Square;
use tables::Counts;
use transfers::{Act, Tally, Transfer};

// The channel table of a sheet, with its counts.
#[derive(Clone, Copy)]
pub struct Network<'a> {
    pub counts: Counts,
    pub channels: Square<'a>,
    pub ghost few_subjects: { counts.subjects ≤ most_subjects },
    pub ghost few_objects: { counts.objects ≤ most_objects },
    pub ghost of_entities: { channels.n ≡ entities counts },
}

// The modes of a transfer: from object to subject, and the other way.
const READ: u8 = 1;

const WRITE: u8 = 2;

impl<'a> Network<'a> {
    // The move from a to b, if there is a channel.
    fn try_move(self, a: usize, b: usize) -> Act
        requires { (a < self.channels.n) × (b < self.channels.n) }
        ensures { Tried (Bytes self.entry.channels.n self.entry.channels.bytes.now) a b result }
    {
        if self.channels.holds(a, b) {
            Act::Moves(a, b)
        } else {
            Act::NotPermitted
        }
    }

    // What a transfer comes to, by its three bytes.
    fn come_to(self, subject: u8, object: u8, mode: u8) -> Act
        ensures { Comes self.entry.counts (Bytes self.entry.channels.n self.entry.channels.bytes.now) (transfer subject object mode) result }
    {
        let subject = subject as usize;
        let object = object as usize;
        if subject >= self.counts.subjects || object >= self.counts.objects {
            return Act::OutOfRange;
        }
        let entity = self.counts.subjects + object;
        match mode {
            READ => self.try_move(entity, subject),
            WRITE => self.try_move(subject, entity),
            _ => Act::OutOfRange,
        }
    }
}

// Makes the act's move, if it has one: the mark at a is added to the mark at b.
#[tactic(auto, unfolding(transfers::specs::Acts::acted, transfers::specs::Acts::plus))]
fn make(marks: &mut [u32], act: Act)
    requires { MovesWithin (length marks.old) act }
    ensures { marks.new ≡ acted act marks.old }
{
    if let Act::Moves(a, b) = act {
        marks[b] = marks[b].wrapping_add(marks[a]);
    }
}

// The verdict byte of an act.
#[tactic(auto, unfolding(transfers::specs::Acts::verdict_byte))]
fn verdict(act: Act) -> u8
    ensures { result ≡ verdict_byte act }
{
    match act {
        Act::Moves(_, _) => 0,
        Act::OutOfRange => 10,
        Act::NotPermitted => 16,
    }
}

// Counts an act by its verdict byte.
#[tactic(auto, unfolding(transfers::specs::Acts::verdict_byte, crate::specs::Inner::noted))]
fn note(counts: &mut Tally, act: Act)
    requires { OneMore counts.old }
    ensures { counts.new ≡ noted counts.old (verdict_byte act) }
{
    match act {
        Act::Moves(_, _) => counts.applied += 1,
        Act::OutOfRange => counts.outside += 1,
        Act::NotPermitted => counts.barred += 1,
    }
}

// Makes transfer number k from flat bytes: subject, object and mode.
pub fn step(
    network: Network,
    subject: u8,
    object: u8,
    mode: u8,
    k: usize,
    marks: &mut [u32],
    verdicts: &mut [u8],
    counts: &mut Tally,
)
    requires { Steppable (entities network.counts) k (state marks verdicts counts) }
    ensures { Stepped network.entry.counts (Bytes network.entry.channels.n network.entry.channels.bytes.now) (transfer subject object mode) k (state marks.entry verdicts.entry counts.entry) (state marks.exit verdicts.exit counts.exit) }
{
    let act = network.come_to(subject, object, mode);
    make(marks, act);
    verdicts[k] = verdict(act);
    note(counts, act);
}

// The same of a record by value, taken apart.
pub fn step_record(
    network: Network,
    t: Transfer,
    k: usize,
    marks: &mut [u32],
    verdicts: &mut [u8],
    counts: &mut Tally,
)
    requires { Steppable (entities network.counts) k (state marks verdicts counts) }
    ensures { Stepped network.entry.counts (Bytes network.entry.channels.n network.entry.channels.bytes.now) t k (state marks.entry verdicts.entry counts.entry) (state marks.exit verdicts.exit counts.exit) }
{
    step(
        network, t.subject, t.object, t.mode, k, marks, verdicts, counts,
    );
}
