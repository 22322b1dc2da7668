// The flows of each entity, by any table of channels: a search with a work list.
#![tactic(auto)]

ghost use Rattle.std.specs.Prelude.{◌≡◌, ◌*◌, ◌≤◌, ◌<◌, length};
ghost use Rattle.answers.specs.Rows.{Bytes};
ghost use Rattle.rows.specs.Written.{FlowRow, FlowTable};
ghost use Rattle.rows.specs.Search.{Arranged, SearchBegun, Spread, SearchReached, MarksBefore};

use answers::Square;
use answers::sizes::MOST_ENTITIES;

// Puts each entity at its own place, but x and 0 with their places changed, so that x is first.
fn arrange(x: usize, order: &mut [usize])
    requires { x < length order.old }
    ensures { SearchBegun (length order.old) x order.new }
{
    for (k, place) in order.iter_mut().enumerate() {
        *place = k;
    }
    order.swap(0, x);
}

// Of the entities from tail on, brings those that u has a channel to before the others. Returns where they end.
fn spread(channels: Square, u: usize, tail: usize, order: &mut [usize]) -> usize
    requires { (u < channels.n) × (tail ≤ channels.n) × Arranged channels.n order.old }
    ensures { Spread (Bytes channels.entry.n channels.entry.bytes.now) channels.entry.n u channels.entry.n order.old order.new tail result }
{
    let mut end = tail;
    for k in tail..channels.n {
        let y = order[k];
        let is_channel = channels.holds(u, y);
        if is_channel {
            order[k] = order[end];
            order[end] = y;
            end += 1;
        }
    }
    end
}

// Brings what x flows to to the front: those before tail are reached, and so is all that those before head have a channel to. Returns
// how many there are.
fn reach(channels: Square, x: usize, order: &mut [usize]) -> usize
    requires { (x < channels.n) × (length order.old ≡ channels.n) }
    ensures { SearchReached (Bytes channels.entry.n channels.entry.bytes.now) channels.entry.n x order.new result }
{
    arrange(x, order);
    let mut head = 0;
    let mut tail = 1;
    while head < tail {
        tail = spread(channels, order[head], tail, order);
        head += 1;
    }
    tail
}

// Sets to 1 the bytes of the entities before tail, and to 0 the others.
fn mark(order: &[usize], tail: usize, row: &mut [u8])
    requires { (tail ≤ length row.old) × Arranged (length row.old) order.now }
    ensures { MarksBefore tail (length row.old) order.now row.new }
{
    row.fill(0);
    for &y in &order[..tail] {
        row[y] = 1;
    }
}

// Writes the row of x: 1 for each entity that x flows to, 0 for the others.
pub fn fill_row(channels: Square, x: usize, row: &mut [u8])
    requires { (x < channels.n) × (length row.old ≡ channels.n) }
    ensures { FlowRow channels.entry.n (Bytes channels.entry.n channels.entry.bytes.now) x row.new }
{
    let mut places = [0; MOST_ENTITIES];
    let order = &mut places[..channels.n];
    let reached = reach(channels, x, order);
    mark(order, reached, row);
}

// Writes the row of each entity in its own place of the table.
pub fn fill_rows(channels: Square, flow: &mut [u8])
    requires { channels.n * channels.n ≤ length flow.old }
    ensures { FlowTable channels.entry.n (Bytes channels.entry.n channels.entry.bytes.now) flow.old flow.new }
{
    let n = channels.n;
    for x in 0..n {
        let start = x * n;
        fill_row(channels, x, &mut flow[start..start + n]);
    }
}
