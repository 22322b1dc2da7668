// The "Only run" points of document 01: a line each, what is tried and the answer number. The thirteen worked points are theorems, in
// proofs/.
#![tactic(auto)]

ghost use Rattle.std.specs.Prelude.{◌*◌, ◌≤◌, length};

use answers::refused::{Refused, answer_of};
use answers::sizes;
use std::io;
use tables::{Counts, LentSheet};
use transfers::Tally;

fn print(rt: &impl Print, what: &str, answer: Result<(), Refused>) -> io::Result<()> {
    let number = answer_of(answer);
    println!(rt; "{what}: {number}")
}

// ---- reading

fn read(text: &[u8]) -> Result<(), Refused> {
    let mut assignment = [0; sizes::LEAST_ASSIGNMENT];
    let mut permission = [0; sizes::LEAST_PERMISSION];
    let mut separations = [0; sizes::LEAST_SEPARATIONS];
    let read = sheet::read(text, &mut assignment, &mut permission, &mut separations);
    read.map(|_| ()).map_err(|refused| refused.why)
}

// The text of nine subjects with so many separations, ascending, each otherwise sound.
fn put_separations(count: usize, text: &mut [u8])
    requires { (count ≤ 65) × (512 ≤ length text.old) }
{
    let header = [1u8, 9, 0, 0];
    digits::put_line(text, 0, &header);
    for i in 0..count {
        let line = [4u8, (i / 8) as u8, (i % 8) as u8];
        digits::put_line(text, 9 + 7 * i, &line);
    }
    let end = [5u8, 0, (count + 1) as u8];
    digits::put_line(text, 9 + 7 * count, &end);
}

fn read_start(text: &[u8], size: usize) -> Result<(), Refused>
    requires { size ≤ length text.now }
{
    read(&text[..size])
}

fn read_separations(count: usize) -> Result<(), Refused>
    requires { count ≤ 65 }
{
    let mut text = [0u8; 512];
    put_separations(count, &mut text);
    read_start(&text, 16 + 7 * count)
}

// ---- rehearsals

fn rehearse(transfers: &[u8], applied: u32) -> Result<(), Refused> {
    let nothing = LentSheet {
        counts: Counts {
            subjects: 0,
            objects: 0,
            roles: 0,
        },
        assignment: &[0; sizes::LEAST_ASSIGNMENT],
        permission: &[0; sizes::LEAST_PERMISSION],
    };
    let tally = Tally {
        applied,
        outside: 0,
        barred: 0,
    };
    let mut marks = [0; sizes::LEAST_MARKS];
    let mut verdicts = [0; sizes::LEAST_VERDICTS];
    let (answer, _) = rehearsal::rehearse_tallied(
        nothing,
        transfers,
        &mut marks,
        &mut verdicts,
        tally,
    );
    answer.map(|_| ())
}

fn rehearse_start(list: &[u8], transfers: usize) -> Result<(), Refused>
    requires { 3 * transfers ≤ length list.now }
{
    rehearse(&list[..3 * transfers], 0)
}

fn main(rt: HostRuntime) -> io::Result<()> {
    print(
        &rt,
        "no subject, object or role",
        read(b"01000000\n050001\n"),
    )?;
    print(&rt, "48 subjects", read(b"01300000\n050001\n"))?;
    print(&rt, "49 subjects", read(b"01310000\n050001\n"))?;
    print(&rt, "64 separations", read_separations(64))?;
    print(&rt, "65 separations", read_separations(65))?;
    let list = [0u8; 12291];
    print(&rt, "4096 transfers", rehearse_start(&list, 4096))?;
    print(&rt, "4097 transfers", rehearse_start(&list, 4097))?;
    print(
        &rt,
        "a tally count of 4294963199",
        rehearse(b"", 4294963199),
    )?;
    print(
        &rt,
        "a tally count of 4294963200",
        rehearse(b"", 4294963200),
    )
}
