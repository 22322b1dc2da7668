// The refusals that calls on tables share. Each list of rules reads as the document's.
#![tactic(auto)]

ghost use Rattle.std.specs.Prelude.{◌≡◌, ◌&&◌, ◌||◌, ◌+◌, ◌-◌, ◌*◌, ◌<◌, ◌≤◌, leb, ltb, length, IfOk};
ghost use Rattle.answers.specs.Sizes.{most_subjects, most_objects, most_roles, least_separations};
ghost use Rattle.answers.specs.Call.{first_refusal};
ghost use Rattle.answers.specs.Refused.{code};
ghost use Rattle.answers.specs.Rows.{exceeds};
ghost use Rattle.tables.specs.Sheet.{lent_by, separation_key};
ghost use Rattle.tables.specs.Refusals.{size_refusals, used_refusals, sheet_refusals, pair_refusals, separation_refusals};
ghost use Rattle.tables.specs.FlowTable.{byte_refusals, flow_size_refusals, flow_refusals, zero_on_diagonal};
ghost use Rattle.refusals.specs.Inner.{Measured};

use answers::refused::{Refused, first_refused};
use answers::{Square, sizes};
use tables::{Counts, LentSheet, Separations};

// What a call says of its other buffers, if it has none.
pub const NO_OTHER: bool = false;

// What a call says of its transfer list, if it takes none.
pub const NO_LIST: bool = false;

// ---- the tables of a sheet

// Whether a count is over its size.
pub fn counts_exceed(counts: Counts) -> bool
    ensures { result ≡ (exceeds counts.subjects most_subjects || exceeds counts.objects most_objects || exceeds counts.roles most_roles) }
{
    counts.subjects > sizes::MOST_SUBJECTS
        || counts.objects > sizes::MOST_OBJECTS
        || counts.roles > sizes::MOST_ROLES
}

// 1 or 5 of a call on tables.
fn check_sizes(short: bool, long: bool, sheet: LentSheet) -> Result<(), Refused>
    ensures { code result ≡ first_refusal (size_refusals short long (lent_by sheet.entry)) }
{
    let counts = sheet.counts;
    let assigned = sheet.assignment.len();
    let permitted = sheet.permission.len();
    first_refused(&[
        (short, Refused::ShortBuffer),
        (assigned < sizes::LEAST_ASSIGNMENT, Refused::ShortBuffer),
        (permitted < sizes::LEAST_PERMISSION, Refused::ShortBuffer),
        (counts.subjects > sizes::MOST_SUBJECTS, Refused::Oversized),
        (counts.objects > sizes::MOST_OBJECTS, Refused::Oversized),
        (counts.roles > sizes::MOST_ROLES, Refused::Oversized),
        (long, Refused::Oversized),
    ])
}

// 11 of tables that passed 1 and 5.
fn check_used(sheet: LentSheet) -> Result<(), Refused>
    requires { Measured (lent_by sheet) }
    ensures { code result ≡ first_refusal (used_refusals (lent_by sheet.entry)) }
{
    let counts = sheet.counts;
    let assigned = answers::some_above(sheet.assignment, counts.subjects * counts.roles, 1);
    let modes = answers::some_above(sheet.permission, counts.roles * counts.objects, 3);
    first_refused(&[(assigned, Refused::TableByte), (modes, Refused::TableByte)])
}

// 1, 5 or 11 of a call on tables. `short` says that another buffer of the call is too short, `long` that its transfer list is over its
// size. Bytes are looked at only where 1 and 5 have passed.
pub fn check_sheet(short: bool, long: bool, sheet: LentSheet) -> Result<(), Refused>
    ensures { code result ≡ first_refusal (sheet_refusals short long (lent_by sheet.entry)) }
{
    check_sizes(short, long, sheet)?;
    check_used(sheet)
}

// ---- separations

// The number by which separation `i` ascends.
fn key_at(separations: Separations, i: usize) -> usize
    requires { 2 * i + 1 < length separations.pairs.now }
    ensures { result ≡ separation_key separations.entry.pairs.now i }
{
    let (from, to) = separations.pair(i);
    from as usize * 256 + to as usize
}

// Whether separation `i` does not ascend from the one before it.
fn is_late(separations: Separations, i: usize) -> bool
    requires { 2 * i + 1 < length separations.pairs.now }
    ensures { let pairs = separations.entry.pairs.now in result ≡ (ltb 0 i && leb (separation_key pairs i) (separation_key pairs (i - 1))) }
{
    0 < i && key_at(separations, i) <= key_at(separations, i - 1)
}

// 6 or 7 of separation `i` among `n` entities.
fn check_pair(n: usize, separations: Separations, i: usize) -> Result<(), Refused>
    requires { 2 * i + 1 < length separations.pairs.now }
    ensures { code result ≡ first_refusal (pair_refusals n separations.entry.pairs.now i) }
{
    let (from, to) = separations.pair(i);
    let late = is_late(separations, i);
    first_refused(&[
        (n <= from as usize, Refused::OutOfRange),
        (n <= to as usize, Refused::OutOfRange),
        (late, Refused::NotAscending),
    ])
}

// 8 of separations among `n` entities, else 6 or 7 of the first faulty one.
pub fn check_separations(n: usize, separations: Separations) -> Result<(), Refused>
    requires { least_separations ≤ length separations.pairs.now }
    ensures { code result ≡ first_refusal (separation_refusals n separations.entry.count separations.entry.pairs.now) }
{
    if separations.count > sizes::MOST_SEPARATIONS {
        return Err(Refused::TooMany);
    }
    for i in 0..separations.count {
        check_pair(n, separations, i)?;
    }
    Ok(())
}

// ---- a flow table

// Whether some entity does not flow to itself.
fn zero_on_diagonal(table: Square) -> bool
    ensures { result ≡ zero_on_diagonal table.entry.n table.entry.bytes.now }
{
    for x in 0..table.n {
        let is_zero = table.byte(x, x) == 0;
        if is_zero {
            return true;
        }
    }
    false
}

// 12 of a flow table.
pub fn check_bytes(table: Square) -> Result<(), Refused>
    ensures { code result ≡ first_refusal (byte_refusals table.entry.n table.entry.bytes.now) }
{
    let above = answers::some_above(table.bytes, table.n * table.n, 1);
    first_refused(&[
        (above, Refused::FlowByte),
        (zero_on_diagonal(table), Refused::FlowByte),
    ])
}

// 1 or 5 of a call on a flow table.
fn check_flow_sizes(short: bool, n: usize, table: &[u8]) -> Result<(), Refused>
    ensures { code result ≡ first_refusal (flow_size_refusals short n table.now) }
{
    first_refused(&[
        (short, Refused::ShortBuffer),
        (table.len() < sizes::LEAST_FLOW, Refused::ShortBuffer),
        (n > sizes::MOST_ENTITIES, Refused::Oversized),
    ])
}

// A lent flow table that was judged: 1, 5 or 12. `short` says that another buffer of the call is too short. Bytes are looked at only
// where 1 and 5 have passed.
pub fn flow_table<'a>(short: bool, n: usize, table: &'a [u8]) -> Result<Square<'a>, Refused>
    ensures judged { code result ≡ first_refusal (flow_refusals short n table.entry.now) }
    ensures lent { IfOk result (λ square. (square.n ≡ n) × (square.bytes ≡ table.entry)) }
{
    check_flow_sizes(short, n, table)?;
    let square = Square { n, bytes: table };
    check_bytes(square)?;
    Ok(square)
}
