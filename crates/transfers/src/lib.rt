// What transfers do to marks, and what a rehearsal of them comes to: definitions and laws. No code but the types.
#![tactic(auto)]

// What a transfer comes to: a move from one entity to another, a number or a mode out of range, or no channel.
#[derive(Clone, Copy)]
pub enum Act {
    Moves(usize, usize),
    OutOfRange,
    NotPermitted,
}

// A transfer: mode 1 moves from object to subject, 2 the other way.
#[repr(C)]
#[derive(Clone, Copy)]
pub struct Transfer {
    pub subject: u8,
    pub object: u8,
    pub mode: u8,
}

// The running counts of the verdict bytes 0, 10 and 16.
#[repr(C)]
#[derive(Clone, Copy, Default)]
pub struct Tally {
    pub applied: u32,
    pub outside: u32,
    pub barred: u32,
}
