// The chain from one entity to another, by any table of channels: distances, and a walk along them.
#![tactic(auto)]

ghost use Rattle.std.specs.Prelude.{◌≡◌, ◌+◌, ◌≤◌, ◌<◌, None, false, length, replicate};
ghost use Rattle.answers.specs.Sizes.{most_entities};
ghost use Rattle.answers.specs.Rows.{Bytes};
ghost use Rattle.chains.specs.Shown.{ShownChain};
ghost use Rattle.chains.specs.Distance.{known, Settled, Round, NoneAt, Distances, Smallest};

use answers::Square;
use answers::sizes::MOST_ENTITIES;

// Sets to d each distance that is not known yet and whose entity has a channel to w.
fn settle(channels: Square, w: usize, d: u8, dist: &mut [Option<u8>])
    requires { (w < channels.n) × (channels.n ≤ length dist.old) }
    ensures { Settled (λ v. Bytes channels.entry.n channels.entry.bytes.now v w) d channels.entry.n dist.old dist.new }
{
    for v in 0..channels.n {
        if dist[v].is_none() && channels.holds(v, w) {
            dist[v] = Some(d);
        }
    }
}

// Sets to r + 1 each distance that is not known yet and whose entity has a channel to one at r. Tells whether there is one at r.
fn round(channels: Square, r: u8, dist: &mut [Option<u8>]) -> bool
    requires { (r < channels.n) × (channels.n ≤ length dist.old) }
    ensures round { Round (Bytes channels.entry.n channels.entry.bytes.now) channels.entry.n r channels.entry.n dist.old dist.new }
    ensures some { result ≡ false → NoneAt r channels.entry.n dist.new }
{
    let mut some = false;
    for w in 0..channels.n {
        if dist[w] == Some(r) {
            settle(channels, w, r + 1, dist);
            some = true;
        }
    }
    some
}

// Sets the distance of each entity to y. It goes by rounds: after the round at r each distance up to r + 1 is known, and where no
// entity is at r, none is further away.
fn measure(channels: Square, y: usize, dist: &mut [Option<u8>])
    requires { (y < channels.n) × (dist.old ≡ replicate most_entities None) }
    ensures { Distances (Bytes channels.entry.n channels.entry.bytes.now) channels.entry.n y dist.new }
{
    dist[y] = Some(0);
    for r in 0..channels.n as u8 {
        if !round(channels, r, dist) {
            break;
        }
    }
}

// The smallest entity that v has a channel to and that is at distance d.
fn next_at(channels: Square, v: usize, d: u8, dist: &[Option<u8>]) -> Option<usize>
    requires { (v < channels.n) × (channels.n ≤ length dist.now) }
    ensures { Smallest (λ w. Bytes channels.entry.n channels.entry.bytes.now v w × (known dist.now w ≡ Some d)) channels.entry.n result }
{
    (0..channels.n).find(|&w| channels.holds(v, w) && dist[w] == Some(d))
}

// Writes the chain from x to y, the shortest and of those the smallest: from each entity it goes on to the smallest that is one nearer.
// Returns how many entities it has, if there is one.
pub fn show_chain(channels: Square, x: usize, y: usize, chain: &mut [u8]) -> Option<usize>
    requires { (x < channels.n) × (y < channels.n) × (channels.n ≤ length chain.old) }
    ensures { ShownChain (Bytes channels.entry.n channels.entry.bytes.now) x y chain.old chain.new result }
{
    let mut dist = [None; MOST_ENTITIES];
    measure(channels, y, &mut dist);
    let distance = dist[x]?;
    let mut at = x;
    chain[0] = at as u8;
    for d in (0..distance).rev() {
        // there is one, since `at` is at distance d + 1
        at = next_at(channels, at, d, &dist).unwrap();
        chain[(distance - d) as usize] = at as u8;
    }
    Some(distance as usize + 1)
}
