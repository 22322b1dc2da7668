// The questions on a flow table. Each judges the table first.
#![tactic(auto)]

ghost use Rattle.std.specs.Prelude.{◌≡◌, ◌<◌, IfOk};
ghost use Rattle.answers.specs.Call.{first_refusal, ◌then◌};
ghost use Rattle.answers.specs.Refused.{code, told_of};
ghost use Rattle.tables.specs.FlowTable.{flow_refusals, entity_refusals};
ghost use Rattle.questions.specs.Questions.{both_asked_refusals, yes_or_no, Flows, Labels, Names, Flags};
ghost use Rattle.questions.specs.Compare.{order_of, ComparesTo};
ghost use Rattle.theory.specs.Order.{Compares};
ghost use Rattle.answers.specs.Rows.{Bytes};

use answers::refused::{Refused, first_refused};
use answers::{Square, sizes};

// How two entities stand to each other.
#[derive(Clone, Copy, Debug, PartialEq, Eq)]
pub enum Compared {
    Equal,
    Below,
    Above,
    Incomparable,
}

// The table of a question on `x`, where 1, 5, 12 and 10 pass.
fn ask<'a>(short: bool, n: usize, table: &'a [u8], x: usize) -> Result<Square<'a>, Refused>
    ensures judged { code result ≡ first_refusal (flow_refusals short n table.entry.now then entity_refusals n x) }
    ensures lent { IfOk result (λ square. (square.n ≡ n) × (square.bytes ≡ table.entry)) }
{
    let square = refusals::flow_table(short, n, table)?;
    first_refused(&[(n <= x, Refused::NoEntity)])?;
    Ok(square)
}

// The same of a question on `x` and `y`.
fn ask_both<'a>(n: usize, table: &'a [u8], x: usize, y: usize) -> Result<Square<'a>, Refused>
    ensures judged { code result ≡ first_refusal (both_asked_refusals n table.entry.now x y) }
    ensures lent { IfOk result (λ square. (square.n ≡ n) × (square.bytes ≡ table.entry)) }
{
    let square = refusals::flow_table(refusals::NO_OTHER, n, table)?;
    first_refused(&[(n <= x, Refused::NoEntity), (n <= y, Refused::NoEntity)])?;
    Ok(square)
}

// Whether `x` flows to `y`. Refuses with 1, 5, 12 and 10, in this order.
pub fn flows(n: usize, table: &[u8], x: usize, y: usize) -> Result<bool, Refused>
    ensures { Flows n table.now x y (yes_or_no result) }
{
    let square = ask_both(n, table, x, y)?;
    Ok(square.holds(x, y))
}

// Writes the label of `x`: for each entity, 1 if it flows to `x`. Tells the label's size. Refuses with 1, 5, 12 and 10, in this
// order, and then changes nothing.
pub fn label(n: usize, table: &[u8], x: usize, label: &mut [u8]) -> Result<usize, Refused>
    ensures { Labels n table.now x label.old (told_of result, label.new) }
{
    let square = ask(label.len() < sizes::LEAST_LABEL, n, table, x)?;
    Ok(labels::fill_label(square, x, label))
}

// How `x` and `y` stand to each other.
fn order(table: Square, x: usize, y: usize) -> Compared
    requires { (x < table.n) × (y < table.n) }
    ensures { Compares (Bytes table.entry.n table.entry.bytes.now) x y (order_of result) }
{
    let there = table.holds(x, y);
    let back = table.holds(y, x);
    match (there, back) {
        (true, true) => Compared::Equal,
        (true, false) => Compared::Below,
        (false, true) => Compared::Above,
        (false, false) => Compared::Incomparable,
    }
}

// Compares `x` and `y`. Refuses with 1, 5, 12 and 10, in this order.
pub fn compare(n: usize, table: &[u8], x: usize, y: usize) -> Result<Compared, Refused>
    ensures { ComparesTo n table.now x y result }
{
    let square = ask_both(n, table, x, y)?;
    Ok(order(square, x, y))
}

// The name of the class of `x`. Refuses with 1, 5, 12 and 10, in this order.
pub fn class_name(n: usize, table: &[u8], x: usize) -> Result<usize, Refused>
    ensures { Names n table.now x (told_of result) }
{
    let square = ask(refusals::NO_OTHER, n, table, x)?;
    Ok(labels::smallest_member(square, x))
}

// The flags of `x`. Refuses with 1, 5, 12 and 10, in this order.
pub fn greatest(n: usize, table: &[u8], x: usize) -> Result<usize, Refused>
    ensures { Flags n table.now x (told_of result) }
{
    let square = ask(refusals::NO_OTHER, n, table, x)?;
    Ok(labels::flags(square, x))
}
