// What is noted of a trial's lines: for each that cannot be read its number, counted from 1, and the reason. Bytes come in as they come to
// the session.
#![tactic(auto)]

pub mod faults;
mod lines;
pub mod text;

ghost use Rattle.std.specs.Prelude.{◌≡◌, take};
ghost use Rattle.trial_lines.specs.Begun.{chunk_most};
ghost use Rattle.trial_notes.specs.Notes.{start, noted};
ghost use Rattle.trial_notes.specs.Left.{Fills, Ends};

use trial_lines::begun::Begun;
use trial_lines::chunks::TakesBytes;
use trial_lines::page::Page;

// Why a line cannot be read. A word has 32 bits, a time 64.
#[derive(Clone, Copy)]
pub enum Reason {
    TooLong,
    Empty,
    CarriageReturn,
    SpaceFirst,
    SpaceLast,
    SpaceTwice,
    NoLetter,
    LowerLetter,
    FieldMissing,
    FieldExtra,
    NoNumber,
    WordTooLarge,
    TimeTooLarge,
    NoHash,
    UpperHash,
}

// How many bytes the notes of a chunk may have: a byte makes no more than 96.
pub const ROOM: usize = 196608;

// The number of the line that comes, and what has come of it.
#[derive(Clone, Copy)]
pub struct Noting {
    pub number: u64,
    pub begun: Begun,
}

impl Noting {
    // Before anything came: the first line.
    #[tactic(auto, unfolding(crate::specs::Notes::start))]
    pub fn start() -> Noting
        ensures { result ≡ start }
    {
        Noting {
            number: 1,
            begun: Begun::new(),
        }
    }

    // The notes of a chunk, no more of it than CHUNK bytes. What is returned is the place after them.
    pub fn note(&mut self, chunk: &[u8], out: &mut [u8; ROOM]) -> usize
        ensures { Fills (noted self.old (take chunk_most chunk.now)) out.old self.new out.new result }
    {
        let mut page = Page::start(out);
        self.take_chunk(chunk, &mut page);
        page.at
    }

    // The note of the last line, if that lacks its end.
    pub fn note_last(&self, out: &mut [u8; ROOM]) -> usize
        ensures { Ends self.now out.old out.new result }
    {
        let mut page = Page::start(out);
        self.end_last(&mut page);
        page.at
    }
}
