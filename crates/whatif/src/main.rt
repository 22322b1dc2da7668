// An example to start from: what if a grant is taken away? Reads a sheet from standard input, sets one permission byte, and names each
// entity whose label the change alters.
#![tactic(auto)]

use answers::refused::Refused;
use answers::sizes;
use std::io;
use tables::{Counts, LentSheet};

// The question: role 1 may no longer read object 0. A mode is 0 none, 1 read, 2 write, 3 both.
const ROLE: usize = 1;

const OBJECT: usize = 0;

const MODE: u8 = 0;

// What the change did to the label of entity x: 1 gained, 2 lost. One change never does both.
fn print_effect(rt: &impl Print, x: usize, effect: u8) -> io::Result<()> {
    if effect == 1 {
        println!(rt; "entity {x}: data of more entities can get into it")?;
    }
    if effect == 2 {
        println!(rt; "entity {x}: data of fewer entities can get into it")?;
    }
    Ok(())
}

// Looks at all bytes: those past the last entity stay 0.
fn print_effects(rt: &impl Print, effect: &[u8]) -> io::Result<()> {
    for (x, byte) in effect.iter().enumerate() {
        print_effect(rt, x, *byte)?;
    }
    Ok(())
}

// Changes the sheet, and writes what that does to each label, by its flow tables before and after. Of a sheet that was accepted only the
// change itself can be refused.
fn ask(
    counts: Counts,
    assignment: &[u8],
    permission: &mut [u8],
    effect: &mut [u8],
) -> Result<(), Refused> {
    let mut before = [0; sizes::LEAST_FLOW];
    let mut after = [0; sizes::LEAST_FLOW];
    fill(counts, assignment, permission, &mut before)?;
    change::set_permission(counts, assignment, permission, ROLE, OBJECT, MODE)?;
    fill(counts, assignment, permission, &mut after)?;
    effects::effect(counts.entities(), &before, &after, effect)
}

fn fill(
    counts: Counts,
    assignment: &[u8],
    permission: &[u8],
    flow: &mut [u8],
) -> Result<(), Refused> {
    let sheet = LentSheet {
        counts,
        assignment,
        permission,
    };
    flow::fill(sheet, flow)
}

fn read_and_ask(rt: &impl Print, text: &[u8]) -> io::Result<()> {
    let mut assignment = [0; sizes::LEAST_ASSIGNMENT];
    let mut permission = [0; sizes::LEAST_PERMISSION];
    let mut separations = [0; sizes::LEAST_SEPARATIONS];
    let read = sheet::read(text, &mut assignment, &mut permission, &mut separations);
    let accepted = match read {
        Ok(accepted) => accepted,
        Err(refused) => {
            let number = refused.why as u8;
            return println!(rt; "the sheet is refused: {number}");
        }
    };
    let mut effect = [0; sizes::LEAST_EFFECT];
    match ask(accepted.counts, &assignment, &mut permission, &mut effect) {
        Ok(()) => print_effects(rt, &effect),
        Err(why) => {
            let number = why as u8;
            println!(rt; "the change is refused: {number}")
        }
    }
}

// One byte more than a text may have, so that a longer one is refused.
const ROOM: usize = sizes::MOST_TEXT + 1;

fn main(rt: HostRuntime) -> io::Result<()> {
    let mut text = [0u8; ROOM];
    let size = intake::read_all(&mut rt.stdin(), &mut text)?;
    read_and_ask(&rt, &text[..size])
}
