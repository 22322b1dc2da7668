// Reading and writing the text of a sheet.
#![tactic(auto)]

ghost use Rattle.std.specs.Prelude.{◌≡◌, length};
ghost use Rattle.answers.specs.Refused.{told_of};
ghost use Rattle.tables.specs.Sheet.{lent_by};
ghost use Rattle.reader.specs.Fill.{at_entry, at_exit, tables};
ghost use Rattle.sheet.specs.Read.{reading_of, read_to, Reads};
ghost use Rattle.sheet.specs.Inner.{LengthsChecked};
ghost use Rattle.sheet.specs.Write.{Writes};
ghost use Rattle.sheet.specs.RefusedLine.{RefusedLine};

use answers::refused::{Refused, first_refused};
use answers::sizes;
use frames::RefusedText;
use tables::{Counts, LentSheet, Separations};

// What an accepted text has beside its tables.
#[derive(Clone, Copy)]
pub struct Accepted {
    pub counts: Counts,
    pub separations: usize,
}

// What C is told of a reading: the number and the line of a refusal, or the counts of an accepted sheet.
#[repr(C)]
#[derive(Clone, Copy)]
pub struct Reading {
    pub answer: u8,
    pub line: usize,
    pub counts: Counts,
    pub separations: usize,
}

impl From<Result<Accepted, RefusedText>> for Reading {
    ghost from_gives = { λ read reading. reading ≡ reading_of read };

    fn from(read: Result<Accepted, RefusedText>) -> Reading {
        match read {
            Ok(accepted) => Reading {
                answer: 0,
                line: 0,
                counts: accepted.counts,
                separations: accepted.separations,
            },
            Err(refused) => Reading {
                answer: refused.why as u8,
                line: refused.line,
                counts: Counts {
                    subjects: 0,
                    objects: 0,
                    roles: 0,
                },
                separations: 0,
            },
        }
    }
}

// 1, then 5 for the text's length, both with line 0.
fn check_lengths(
    text: &[u8],
    assignment: &[u8],
    permission: &[u8],
    separations: &[u8],
) -> Result<(), RefusedText>
    ensures { LengthsChecked text.now (tables assignment.now permission.now separations.now) result }
{
    first_refused(&[
        (
            assignment.len() < sizes::LEAST_ASSIGNMENT,
            Refused::ShortBuffer,
        ),
        (
            permission.len() < sizes::LEAST_PERMISSION,
            Refused::ShortBuffer,
        ),
        (
            separations.len() < sizes::LEAST_SEPARATIONS,
            Refused::ShortBuffer,
        ),
        (text.len() > sizes::MOST_TEXT, Refused::Oversized),
    ])
    .map_err(|why| RefusedText { why, line: 0 })
}

// Reads a sheet into the lent tables. The whole text is checked before a table is written, so a refusal changes none.
pub fn read(
    text: &[u8],
    assignment: &mut [u8],
    permission: &mut [u8],
    separations: &mut [u8],
) -> Result<Accepted, RefusedText>
    ensures { Reads text.now (at_entry assignment permission separations) (read_to (reading_of result) (at_exit assignment permission separations)) }
{
    check_lengths(text, assignment, permission, separations)?;
    let passed = checking::check_text(text)?;
    reader::fill(text, assignment, permission, separations);
    Ok(Accepted {
        counts: passed.counts,
        separations: passed.separations,
    })
}

// ---- writing, and the refused line

// Writes the one text of the sheet in the tables at the start of `text`. The answer is the text's length.
pub fn write(sheet: LentSheet, separations: Separations, text: &mut [u8]) -> Result<usize, Refused>
    ensures { Writes (lent_by sheet.entry) separations.entry.count separations.entry.pairs.now text.old (told_of result, text.new) }
{
    let short = separations.pairs.len() < sizes::LEAST_SEPARATIONS
        || text.len() < sizes::LEAST_TEXT;
    refusals::check_sheet(short, refusals::NO_LIST, sheet)?;
    refusals::check_separations(sheet.counts.entities(), separations)?;
    let size = scribe::write_tables(sheet, separations, text);
    Ok(size)
}

// The line of a number, counted from 1, without its line feed: a part of the caller's own text. An unfinished last line counts.
// Where there is no such line it is the empty part at the text's end.
#[tactic(auto, using(lines::proofs::Places::start_first, lines::proofs::Places::end_within))]
pub fn refused_line(text: &[u8], line: usize) -> &[u8]
    ensures { RefusedLine text.entry line result }
{
    let start = lines::line_start(text, line);
    let end = lines::line_end(text, line);
    &text[start..end]
}
