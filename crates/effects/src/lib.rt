// What a change did to labels, and a row handed back.
#![tactic(auto)]

ghost use Rattle.std.specs.Prelude.{◌≡◌, ◌||◌, ◌<◌, ◌≤◌, ◌↔◌, IsTrue, IfOk, length};
ghost use Rattle.answers.specs.Sizes.{least_flow, least_effect};
ghost use Rattle.answers.specs.Call.{first_refusal};
ghost use Rattle.answers.specs.Refused.{code};
ghost use Rattle.answers.specs.Rows.{Bytes, shorter};
ghost use Rattle.theory.specs.Effect.{Gained, Effect};
ghost use Rattle.effects.specs.Effects.{effect_refusals, Affected, Affects};
ghost use Rattle.effects.specs.ChosenRow.{can_choose, ChosenRow};
ghost use Rattle.effects.specs.Inner.{NewFlow};

use answers::refused::Refused;
use answers::{Square, sizes};

// The flow tables of equal N before and after a change.
#[derive(Clone, Copy)]
struct Change<'a> {
    before: Square<'a>,
    after: Square<'a>,
    ghost equal_n: { before.n ≡ after.n },
}

// Whether the table after a change or the effect's buffer is too short.
fn is_short(after: &[u8], effect: &[u8]) -> bool
    ensures { result ≡ (shorter after.now least_flow || shorter effect.now least_effect) }
{
    after.len() < sizes::LEAST_FLOW || effect.len() < sizes::LEAST_EFFECT
}

impl<'a> Change<'a> {
    // The change between two lent tables, where 1, 5 and 12 pass.
    fn between(
        n: usize,
        before: &'a [u8],
        after: &'a [u8],
        effect: &[u8],
    ) -> Result<Change<'a>, Refused>
        ensures judged { code result ≡ first_refusal (effect_refusals n before.entry.now after.entry.now effect.now) }
        ensures lent { IfOk result (λ c. (c.before.bytes ≡ before.entry) × (c.after.n ≡ n) × (c.after.bytes ≡ after.entry)) }
    {
        let before = refusals::flow_table(is_short(after, effect), n, before)?;
        let after = Square { n, bytes: after };
        refusals::check_bytes(after)?;
        Ok(Change { before, after })
    }

    // The change that takes this one back.
    fn undone(self) -> Change<'a>
        ensures { (result.before ≡ self.entry.after) × (result.after ≡ self.entry.before) }
    {
        Change {
            before: self.after,
            after: self.before,
        }
    }

    // Whether `x` flows to `y` after the change and did not before.
    fn adds(self, x: usize, y: usize) -> bool
        requires { (x < self.after.n) × (y < self.after.n) }
        ensures { IsTrue result ↔ NewFlow self.entry.after.n self.entry.before.bytes.now self.entry.after.bytes.now x y }
    {
        !self.before.holds(x, y) && self.after.holds(x, y)
    }

    // Whether the label of `x` gained an entity.
    fn gained(self, x: usize) -> bool
        requires { x < self.after.n }
        ensures { let n = self.entry.after.n in IsTrue result ↔ Gained n (Bytes n self.entry.before.bytes.now) (Bytes n self.entry.after.bytes.now) x }
    {
        (0..self.after.n).any(|y| self.adds(y, x))
    }

    // The effect on `x`: 1 if its label gained an entity, 2 if it lost one, summed.
    fn effect_on(self, x: usize) -> u8
        requires { x < self.after.n }
        ensures { let n = self.entry.after.n in Effect n (Bytes n self.entry.before.bytes.now) (Bytes n self.entry.after.bytes.now) x result }
    {
        let back = self.undone();
        let gain = self.gained(x);
        let loss = back.gained(x);
        gain as u8 + 2 * loss as u8
    }

    // Writes the effect on each entity.
    fn fill(self, effect: &mut [u8])
        requires { least_effect ≤ length effect.old }
        ensures { Affected self.entry.after.n self.entry.before.bytes.now self.entry.after.bytes.now effect.old (0, effect.new) }
    {
        for (x, byte) in effect[..self.after.n].iter_mut().enumerate() {
            *byte = self.effect_on(x);
        }
    }
}

// Writes what a change did to each label, by the flow tables before and after it: 0 the same, 1 gained only, 2 lost only, 3 both.
// Refuses with 1, 5 and 12, in this order, and then changes nothing.
pub fn effect<'a>(
    n: usize,
    before: &'a [u8],
    after: &'a [u8],
    effect: &mut [u8],
) -> Result<(), Refused>
    ensures { Affects n before.now after.now effect.old (code result, effect.new) }
{
    let change = Change::between(n, before, after, effect)?;
    change.fill(effect);
    Ok(())
}

// Whether the choice, the number, the count and both lengths are good.
fn can_choose(before: &[u8], after: &[u8], n: usize, choice: usize, x: usize) -> bool
    ensures { result ≡ can_choose before.now after.now n choice x }
{
    choice < 2
        && x < n
        && n <= sizes::MOST_ENTITIES
        && sizes::LEAST_FLOW <= before.len()
        && sizes::LEAST_FLOW <= after.len()
}

// The row of `x`, as a part of the table before a change for choice 0, and of the one after it for 1. For a bad choice, number,
// count or length it is the empty part at the start of the table before.
pub fn chosen_row<'a>(
    before: &'a [u8],
    after: &'a [u8],
    n: usize,
    choice: usize,
    x: usize,
) -> &'a [u8]
    ensures { ChosenRow before.entry after.entry n choice x result }
{
    if !can_choose(before, after, n, choice, x) {
        return &before[..0];
    }
    let from = x * n;
    let to = from + n;
    match choice {
        0 => &before[from..to],
        _ => &after[from..to],
    }
}
