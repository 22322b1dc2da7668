// Label, class and flags of an entity, by the bytes of a flow table that was judged.
#![tactic(auto)]

ghost use Rattle.std.specs.Prelude.{◌<◌, ◌↔◌, IsTrue};
ghost use Rattle.answers.specs.Call.{told};
ghost use Rattle.answers.specs.Rows.{Bytes};
ghost use Rattle.theory.specs.Order.{Equivalent, ClassName, GreatestSecrecy, GreatestIntegrity, Greatest};
ghost use Rattle.labels.specs.Labelled.{Labelled};
ghost use Rattle.labels.specs.Inner.{Asked, Labelling, FlowsOn};

use answers::Square;

// Writes the label of `x`, and returns its size.
pub fn fill_label(table: Square, x: usize, label: &mut [u8]) -> usize
    requires { Labelling table.n table.bytes.now x label.old }
    ensures { Labelled table.entry.n table.entry.bytes.now x label.old (told 0 result, label.new) }
{
    let mut size = 0;
    for (y, byte) in label[..table.n].iter_mut().enumerate() {
        *byte = table.byte(y, x);
        size += *byte as usize;
    }
    size
}

// Whether `x` and `y` flow to each other.
fn are_equivalent(table: Square, x: usize, y: usize) -> bool
    requires { (x < table.n) × (y < table.n) }
    ensures { IsTrue result ↔ Equivalent (Bytes table.entry.n table.entry.bytes.now) x y }
{
    table.holds(x, y) && table.holds(y, x)
}

// The smallest entity that is equivalent to `x`: `x` itself, if none below it is.
pub fn smallest_member(table: Square, x: usize) -> usize
    requires { Asked table.n table.bytes.now x }
    ensures { ClassName table.entry.n (Bytes table.entry.n table.entry.bytes.now) x result }
{
    (0..x).find(|z| are_equivalent(table, x, *z)).unwrap_or(x)
}

// Whether `x` flows to `y`, another entity.
fn leaves(table: Square, x: usize, y: usize) -> bool
    requires { (x < table.n) × (y < table.n) }
    ensures { IsTrue result ↔ FlowsOn table.entry.n table.entry.bytes.now x y }
{
    x != y && table.holds(x, y)
}

// Whether `x` flows to nothing but itself.
fn has_greatest_secrecy(table: Square, x: usize) -> bool
    requires { x < table.n }
    ensures { IsTrue result ↔ GreatestSecrecy table.entry.n (Bytes table.entry.n table.entry.bytes.now) x }
{
    !(0..table.n).any(|y| leaves(table, x, y))
}

// Whether nothing but `x` flows into `x`.
fn has_greatest_integrity(table: Square, x: usize) -> bool
    requires { x < table.n }
    ensures { IsTrue result ↔ GreatestIntegrity table.entry.n (Bytes table.entry.n table.entry.bytes.now) x }
{
    !(0..table.n).any(|y| leaves(table, y, x))
}

// The flags of `x`: 1 for greatest secrecy, 2 for greatest integrity, summed.
pub fn flags(table: Square, x: usize) -> usize
    requires { x < table.n }
    ensures { Greatest table.entry.n (Bytes table.entry.n table.entry.bytes.now) x result }
{
    has_greatest_secrecy(table, x) as usize + 2 * has_greatest_integrity(table, x) as usize
}
