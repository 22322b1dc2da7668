// The tables of a sheet, and flow tables: definitions and laws. No code but the types that calls on tables take.
#![tactic(auto)]

ghost use Rattle.std.specs.Prelude.{◌≡◌, ◌+◌, ◌*◌, ◌<◌, length};
ghost use Rattle.tables.specs.Sheet.{CountsFit, entities, from, to};

// How many subjects, objects and roles a sheet has.
#[repr(C)]
#[derive(Clone, Copy)]
pub struct Counts {
    pub subjects: usize,
    pub objects: usize,
    pub roles: usize,
}

impl Counts {
    // N = S + O: subjects first, then objects.
    pub fn entities(self) -> usize
        requires { CountsFit self }
        ensures { result ≡ entities self }
    {
        self.subjects + self.objects
    }
}

// The tables of a sheet, as a caller lends them to be read.
#[derive(Clone, Copy)]
pub struct LentSheet<'a> {
    pub counts: Counts,
    pub assignment: &'a [u8],
    pub permission: &'a [u8],
}

// Separations, as a caller lends them: so many pairs of entities.
#[derive(Clone, Copy)]
pub struct Separations<'a> {
    pub count: usize,
    pub pairs: &'a [u8],
}

impl<'a> Separations<'a> {
    // The two entities of separation i.
    pub fn pair(self, i: usize) -> (u8, u8)
        requires { 2 * i + 1 < length self.pairs.now }
        ensures { (result.0 ≡ from self.entry.pairs.now i) × (result.1 ≡ to self.entry.pairs.now i) }
    {
        (self.pairs[2 * i], self.pairs[2 * i + 1])
    }
}
