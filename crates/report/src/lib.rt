// The whole output of the program for a text.
#![tactic(auto)]

ghost use Rattle.std.specs.Prelude.{◌∷◌, ◌+◌, ◌*◌, ◌<◌, ◌≤◌, length, take};
ghost use Rattle.answers.specs.Rows.{Bytes};
ghost use Rattle.answers.specs.Refused.{number, told_of};
ghost use Rattle.tables.specs.Sheet.{lent_by};
ghost use Rattle.theory.specs.Order.{LabelSize};
ghost use Rattle.digits.specs.Line.{line_of};
ghost use Rattle.digits.specs.Inner.{Put};
ghost use Rattle.output.specs.Output.{EntityLine, EntityLines, refusal_line};
ghost use Rattle.report.specs.Report.{least_output, Reports};
ghost use Rattle.report.specs.Inner.{PutLine, PutOutput, Describable, Printable, PutVerdict, PutSheet};
ghost use Rattle.tables.specs.FlowTable.{SoundFlow};

use answers::refused::Refused;
use answers::{Square, sizes};
use frames::RefusedText;
use separations::Breach;
use tables::{LentSheet, Separations};

pub const LEAST_OUTPUT: usize = 1435;

const REFUSED: u8 = 0x80;

const ENTITY: u8 = 0x81;

const VERDICT: u8 = 0x82;

// ---- a line for each entity

// How many entities the label of `x` has.
fn label_size(table: Square, x: usize) -> usize
    requires { SoundFlow table.n table.bytes.now × (x < table.n) }
    ensures { LabelSize table.entry.n (Bytes table.entry.n table.entry.bytes.now) x result }
{
    let mut label = [0; sizes::LEAST_LABEL];
    labels::fill_label(table, x, &mut label)
}

// The line of entity `x` by the flow table; the answer is the place past it.
fn put_entity(out: &mut [u8], at: usize, table: Square, x: usize) -> usize
    requires { Describable table.n table.bytes.now x at out.old }
    ensures { PutLine (EntityLine table.entry.n (Bytes table.entry.n table.entry.bytes.now) x) at out.old result out.new }
{
    let class = labels::smallest_member(table, x);
    let flags = labels::flags(table, x);
    let size = label_size(table, x);
    let line = [ENTITY, x as u8, class as u8, flags as u8, size as u8];
    digits::put_line(out, at, &line)
}

// The lines of all entities, at the start of the buffer.
fn put_entities(out: &mut [u8], table: Square) -> usize
    requires { SoundFlow table.n table.bytes.now × (11 * table.n ≤ length out.old) }
    ensures { PutOutput (EntityLines table.entry.n (Bytes table.entry.n table.entry.bytes.now) table.entry.n) out.old result out.new }
{
    let mut at = 0;
    for x in 0..table.n {
        at = put_entity(out, at, table, x);
    }
    at
}

// ---- the line of the verdict

// The line of a broken separation, with its chain.
fn put_broken(out: &mut [u8], at: usize, breach: Breach, chain: &[u8]) -> usize
    requires { (breach.position < 256) × (breach.count ≤ 97) × (breach.count ≤ length chain.now) × (at + 203 ≤ length out.old) }
    ensures { Put (line_of (0x82 ∷ 1 ∷ breach.position ∷ breach.count ∷ take breach.count chain.now)) at out.old result out.new }
{
    let head = [VERDICT, 1, breach.position as u8, breach.count as u8];
    let end = digits::put_bytes(out, at, &head);
    digits::put_line(out, end, &chain[..breach.count])
}

// The line of the verdict on a sheet that was accepted.
fn put_verdict(sheet: LentSheet, separations: Separations, out: &mut [u8], at: usize) -> usize
    requires printable { Printable (lent_by sheet) separations.count separations.pairs.now }
    requires at_in_bounds { at + 203 ≤ length out.old }
    ensures { PutVerdict (lent_by sheet.entry) separations.entry.count separations.entry.pairs.now at out.old result out.new }
{
    let mut chain = [0; sizes::LEAST_CHAIN];
    let judged = verdict::judge(sheet, separations, &mut chain);
    // such a sheet is never refused
    match judged.unwrap() {
        None => digits::put_line(out, at, &[VERDICT, 0]),
        Some(breach) => put_broken(out, at, breach, &chain),
    }
}

// ---- the whole output

// The output for an accepted sheet, at the start of the buffer; the answer is its length.
fn put_sheet(sheet: LentSheet, separations: Separations, out: &mut [u8]) -> usize
    requires printable { Printable (lent_by sheet) separations.count separations.pairs.now }
    requires least_output_in_bounds { least_output ≤ length out.old }
    ensures { PutSheet (lent_by sheet.entry) separations.entry.count separations.entry.pairs.now out.old result out.new }
{
    let mut flows = [0; sizes::LEAST_FLOW];
    // such a sheet is never refused
    flow::fill(sheet, &mut flows).unwrap();
    let table = Square {
        n: sheet.counts.entities(),
        bytes: &flows,
    };
    let end = put_entities(out, table);
    put_verdict(sheet, separations, out, end)
}

// The output for a refused text: its number, and its line, the high byte first.
fn put_refusal(out: &mut [u8], refused: RefusedText) -> usize
    requires { (refused.line < 65536) × (9 ≤ length out.old) }
    ensures { Put (refusal_line (number refused.why) refused.line) 0 out.old result out.new }
{
    let number = u8::from(refused.why);
    let line = refused.line;
    let bytes = [REFUSED, number, (line / 256) as u8, (line % 256) as u8];
    digits::put_line(out, 0, &bytes)
}

// Writes the whole output for a text at the start of `out`, and tells the output's length. Refuses with 1 if `out` has fewer than 1,435
// bytes, and then changes nothing.
pub fn report(text: &[u8], out: &mut [u8]) -> Result<usize, Refused>
    ensures { Reports text.now out.old (told_of result, out.new) }
{
    if out.len() < LEAST_OUTPUT {
        return Err(Refused::ShortBuffer);
    }
    let mut assignment = [0; sizes::LEAST_ASSIGNMENT];
    let mut permission = [0; sizes::LEAST_PERMISSION];
    let mut separations = [0; sizes::LEAST_SEPARATIONS];
    let read = sheet::read(text, &mut assignment, &mut permission, &mut separations);
    let size = match read {
        Err(refused) => put_refusal(out, refused),
        Ok(accepted) => {
            let sheet = LentSheet {
                counts: accepted.counts,
                assignment: &assignment,
                permission: &permission,
            };
            let separations = Separations {
                count: accepted.separations,
                pairs: &separations,
            };
            put_sheet(sheet, separations, out)
        }
    };
    Ok(size)
}
