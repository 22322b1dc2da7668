// The test face: each public call, exported for the outside tests and the benchmark to link. No part of the delivery: callers in C are
// handed what `sievemarl` exports.
//
// An export can return neither a `Result` nor a part of a slice. So an answer goes out as its number with its values, `compare` tells its
// order as a number, and `refused_line` and `chosen_row` put the part itself, its place and its length, where the caller says.
#![tactic(auto)]

ghost use Rattle.tables.specs.Sheet.{lent};
ghost use Rattle.rehearsal.specs.Calls.{RehearsesFlat, RehearsesRecords, WithLentTally};

use answers::Told;
use answers::refused::answer_of;
use questions::Compared;
use separations::Judged;
use sheet::Reading;
use tables::{Counts, LentSheet, Separations};
use transfers::{Tally, Transfer};

#[unsafe(no_mangle)]
pub extern "C" fn testface_read(
    text: &[u8],
    assignment: &mut [u8],
    permission: &mut [u8],
    separations: &mut [u8],
) -> Reading {
    Reading::from(sheet::read(text, assignment, permission, separations))
}

#[unsafe(no_mangle)]
pub extern "C" fn testface_write(
    counts: Counts,
    assignment: &[u8],
    permission: &[u8],
    count: usize,
    separations: &[u8],
    text: &mut [u8],
) -> Told {
    let sheet = LentSheet {
        counts,
        assignment,
        permission,
    };
    let separations = Separations {
        count,
        pairs: separations,
    };
    Told::from(sheet::write(sheet, separations, text))
}

#[unsafe(no_mangle)]
pub extern "C" fn testface_refused_line<'a>(text: &'a [u8], line: usize, part: &mut &'a [u8]) {
    *part = sheet::refused_line(text, line);
}

#[unsafe(no_mangle)]
pub extern "C" fn testface_fill(
    counts: Counts,
    assignment: &[u8],
    permission: &[u8],
    flow: &mut [u8],
) -> u8 {
    let sheet = LentSheet {
        counts,
        assignment,
        permission,
    };
    answer_of(flow::fill(sheet, flow))
}

#[unsafe(no_mangle)]
pub extern "C" fn testface_flows(n: usize, table: &[u8], x: usize, y: usize) -> Told {
    Told::from(questions::flows(n, table, x, y).map(|yes| yes as usize))
}

#[unsafe(no_mangle)]
pub extern "C" fn testface_label(n: usize, table: &[u8], x: usize, label: &mut [u8]) -> Told {
    Told::from(questions::label(n, table, x, label))
}

#[unsafe(no_mangle)]
pub extern "C" fn testface_class_name(n: usize, table: &[u8], x: usize) -> Told {
    Told::from(questions::class_name(n, table, x))
}

// 1 equal, 2 below, 3 above, 4 incomparable.
fn order_number(order: Compared) -> usize {
    match order {
        Compared::Equal => 1,
        Compared::Below => 2,
        Compared::Above => 3,
        Compared::Incomparable => 4,
    }
}

#[unsafe(no_mangle)]
pub extern "C" fn testface_compare(n: usize, table: &[u8], x: usize, y: usize) -> Told {
    Told::from(questions::compare(n, table, x, y).map(order_number))
}

#[unsafe(no_mangle)]
pub extern "C" fn testface_greatest(n: usize, table: &[u8], x: usize) -> Told {
    Told::from(questions::greatest(n, table, x))
}

#[unsafe(no_mangle)]
pub extern "C" fn testface_effect(n: usize, before: &[u8], after: &[u8], effect: &mut [u8]) -> u8 {
    answer_of(effects::effect(n, before, after, effect))
}

#[unsafe(no_mangle)]
pub extern "C" fn testface_chosen_row<'a>(
    before: &'a [u8],
    after: &'a [u8],
    n: usize,
    choice: usize,
    x: usize,
    part: &mut &'a [u8],
) {
    *part = effects::chosen_row(before, after, n, choice, x);
}

#[unsafe(no_mangle)]
pub extern "C" fn testface_set_assignment(
    counts: Counts,
    assignment: &mut [u8],
    permission: &[u8],
    s: usize,
    r: usize,
    value: u8,
) -> u8 {
    answer_of(change::set_assignment(counts, assignment, permission, s, r, value))
}

#[unsafe(no_mangle)]
pub extern "C" fn testface_set_permission(
    counts: Counts,
    assignment: &[u8],
    permission: &mut [u8],
    r: usize,
    o: usize,
    mode: u8,
) -> u8 {
    answer_of(change::set_permission(counts, assignment, permission, r, o, mode))
}

#[unsafe(no_mangle)]
pub extern "C" fn testface_chain(
    counts: Counts,
    assignment: &[u8],
    permission: &[u8],
    x: usize,
    y: usize,
    chain: &mut [u8],
) -> Told {
    let sheet = LentSheet {
        counts,
        assignment,
        permission,
    };
    Told::from(verdict::chain(sheet, x, y, chain))
}

#[unsafe(no_mangle)]
pub extern "C" fn testface_judge(
    counts: Counts,
    assignment: &[u8],
    permission: &[u8],
    count: usize,
    separations: &[u8],
    chain: &mut [u8],
) -> Judged {
    let sheet = LentSheet {
        counts,
        assignment,
        permission,
    };
    let separations = Separations {
        count,
        pairs: separations,
    };
    Judged::from(verdict::judge(sheet, separations, chain))
}

#[unsafe(no_mangle)]
pub extern "C" fn testface_new_tally() -> Tally {
    rehearsal::new_tally()
}

#[unsafe(no_mangle)]
pub extern "C" fn testface_rehearse(
    counts: Counts,
    assignment: &[u8],
    permission: &[u8],
    transfers: &[u8],
    marks: &mut [u32],
    verdicts: &mut [u8],
    tally: &mut Tally,
) -> Told
    ensures { WithLentTally RehearsesFlat (lent counts assignment.now permission.now) transfers marks verdicts tally result }
{
    let sheet = LentSheet {
        counts,
        assignment,
        permission,
    };
    Told::from(rehearsal::rehearse(sheet, transfers, marks, verdicts, tally))
}

#[unsafe(no_mangle)]
pub extern "C" fn testface_rehearse_records(
    counts: Counts,
    assignment: &[u8],
    permission: &[u8],
    records: &[Transfer],
    marks: &mut [u32],
    verdicts: &mut [u8],
    tally: &mut Tally,
) -> Told
    ensures { WithLentTally RehearsesRecords (lent counts assignment.now permission.now) records marks verdicts tally result }
{
    let sheet = LentSheet {
        counts,
        assignment,
        permission,
    };
    Told::from(rehearsal::rehearse_records(sheet, records, marks, verdicts, tally))
}

#[unsafe(no_mangle)]
pub extern "C" fn testface_report(text: &[u8], out: &mut [u8]) -> Told {
    Told::from(report::report(text, out))
}
