// The text of a sheet, written from its tables.
#![tactic(auto)]

ghost use Rattle.std.specs.Prelude.{◌≡◌, ℕ, [], ◌∷◌, ◌+◌, ◌*◌, ◌<◌, ◌≤◌, length, take};
ghost use Rattle.tables.specs.Sheet.{lent_by, sheet_of};
ghost use Rattle.digits.specs.Line.{line_of};
ghost use Rattle.digits.specs.Inner.{Put};
ghost use Rattle.frames.specs.declared.Frame.{Frame as Line};
ghost use Rattle.frames.specs.declared.Frame.TheVariants.{Header};
ghost use Rattle.frames.specs.Frame.{frame_bytes};
ghost use Rattle.text.specs.Content.{present, separates, closing};
ghost use Rattle.scribe.specs.Put.{Puts, Room, Frames, Table, Scribable, Written};

use frames::Frame;
use tables::{Counts, LentSheet, Separations};

const HEADER: u8 = 1;

const ASSIGN: u8 = 2;

const PERMIT: u8 = 3;

const SEPARATE: u8 = 4;

const END: u8 = 5;

// Where the next line goes, and how many lines stand before it.
#[derive(Clone, Copy)]
pub struct Pen {
    pub at: usize,
    pub lines: usize,
}

// A frame's line; the answer is the place past it.
#[tactic(auto, unfolding(frames::specs::Frame::frame_bytes, digits::specs::Line::line_of, digits::specs::Digit::to_digits))]
fn put_line(text: &mut [u8], at: usize, frame: Frame) -> usize
    requires { at + length (line_of (frame_bytes frame)) ≤ length text.old }
    ensures { Put (line_of (frame_bytes frame)) at text.old result text.new }
{
    match frame {
        Frame::Header(s, o, r) => digits::put_line(text, at, &[HEADER, s, o, r]),
        Frame::Assign(s, r) => digits::put_line(text, at, &[ASSIGN, s, r]),
        Frame::Permit(r, o, m) => digits::put_line(text, at, &[PERMIT, r, o, m]),
        Frame::Separate(x, y) => digits::put_line(text, at, &[SEPARATE, x, y]),
        Frame::End(h, l) => digits::put_line(text, at, &[END, h, l]),
    }
}

// A text that is being written, and the pen on it.
#[derive(Drop)]
struct Page<'a> {
    text: &'a mut [u8],
    pen: Pen,
}

impl<'a> Page<'a> {
    // One line more.
    fn put_frame(&mut self, frame: Frame)
        requires { Room (frame ∷ []) self.old }
        ensures same_text { self.new.text.ghost_name ≡ self.old.text.ghost_name }
        ensures lines { Puts (frame ∷ []) self.old self.new }
    {
        self.pen.at = put_line(self.text, self.pen.at, frame);
        self.pen.lines += 1;
    }

    // The header's line, the first of a text.
    fn put_header(&mut self, counts: Counts)
        requires fit { (counts.subjects < 256) × (counts.objects < 256) × (counts.roles < 256) }
        requires room { Room (Header counts.subjects counts.objects counts.roles ∷ []) self.old }
        ensures same_text { self.new.text.ghost_name ≡ self.old.text.ghost_name }
        ensures lines { Puts (Header counts.subjects counts.objects counts.roles ∷ []) self.old self.new }
    {
        self.put_frame(Frame::Header(
            counts.subjects as u8,
            counts.objects as u8,
            counts.roles as u8,
        ));
    }

    // A line for each byte that is not 0 of a table of `rows` x `width` bytes: `frame_of` its row, its place there, and the byte.
    fn put_table<F: Fn(u8, u8, u8) -> Frame>(
        &mut self,
        rows: usize,
        width: usize,
        table: &[u8],
        frame_of: F,
    )
        requires callable { F.IsAlwaysCallable frame_of }
        requires table { Table rows width table.now }
        requires frames { (frame : ℕ → ℕ → Line) × Frames (F.post frame_of) width (take (rows * width) table.now) self.old frame }
        ensures same_text { self.new.text.ghost_name ≡ self.old.text.ghost_name }
        ensures lines { (frame : ℕ → ℕ → Line) → Frames (F.post frame_of) width (take (rows * width) table.now) self.old frame → Puts (present frame 0 (take (rows * width) table.now)) self.old self.new }
    {
        let used = &table[..rows * width];
        for (i, byte) in used.iter().enumerate() {
            let is_present = *byte != 0;
            if is_present {
                let row = (i / width) as u8;
                let place = (i % width) as u8;
                self.put_frame(frame_of(row, place, *byte));
            }
        }
    }

    // The lines of separations, each a pair of bytes.
    fn put_separated(&mut self, pairs: &[u8])
        requires { Room (separates pairs.now) self.old }
        ensures same_text { self.new.text.ghost_name ≡ self.old.text.ghost_name }
        ensures lines { Puts (separates pairs.now) self.old self.new }
    {
        for pair in pairs.chunks_exact(2) {
            self.put_frame(Frame::Separate(pair[0], pair[1]));
        }
    }

    // The end's line, with the count of the lines before it.
    #[tactic(auto, unfolding(text::specs::Content::closing))]
    fn put_end(&mut self)
        requires lines_bound { self.old.pen.lines < 65536 }
        requires room { Room (closing self.old.pen.lines ∷ []) self.old }
        ensures same_text { self.new.text.ghost_name ≡ self.old.text.ghost_name }
        ensures lines { Puts (closing self.old.pen.lines ∷ []) self.old self.new }
    {
        let high = (self.pen.lines / 256) as u8;
        let low = (self.pen.lines % 256) as u8;
        self.put_frame(Frame::End(high, low));
    }
}

// The one text of sound tables, at the start of the buffer; the answer is its length.
pub fn write_tables(sheet: LentSheet, separations: Separations, text: &mut [u8]) -> usize
    requires { Scribable (lent_by sheet) separations.count separations.pairs.now text.old }
    ensures { Written (sheet_of (lent_by sheet.entry) separations.entry.count separations.entry.pairs.now) text.old result text.new }
{
    let counts = sheet.counts;
    let mut page = Page {
        text,
        pen: Pen { at: 0, lines: 0 },
    };
    page.put_header(counts);
    page.put_table(
        counts.subjects,
        counts.roles,
        sheet.assignment,
        |s, r, _| Frame::Assign(s, r),
    );
    page.put_table(
        counts.roles,
        counts.objects,
        sheet.permission,
        Frame::Permit,
    );
    page.put_separated(&separations.pairs[..2 * separations.count]);
    page.put_end();
    page.pen.at
}
