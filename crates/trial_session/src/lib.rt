// A trial's session: bytes come in, what their lines print goes out, and arrays hold the tables between.
#![tactic(auto)]

mod lines;

ghost use Rattle.std.specs.Prelude.{◌≡◌, take};
ghost use Rattle.trial_lines.specs.Begun.{chunk_most};
ghost use Rattle.trial_session.specs.Session.{start};
ghost use Rattle.trial_session.specs.Held.{new_trial, held_of, session_in, Feeds, Closes};

use rules::BlockSlot;
use trial_fronts::Arrays;
use trial_lines::begun::Begun;
use trial_lines::chunks::TakesBytes;
use trial_lines::page::Page;

// How many bytes what is printed may have: a byte makes no more than 1,184, those of a chunk and the first of a line that had begun. At the
// end of a trial a last line makes no more than 2,368, and each slot 96.
pub const ROOM: usize = 2426016;

// How many slots of the arrays are in use, and the record.
#[derive(Clone, Copy)]
pub struct Trial {
    pub n: u32,
    pub m: u32,
    pub active: BlockSlot,
}

// The tables, which stand at the front of the arrays, and what has come of a line.
#[derive(Drop)]
pub struct Session {
    pub arrays: Arrays,
    pub trial: Trial,
    pub begun: Begun,
}

impl Session {
    // Before anything came: no slots, so that each call is refused its shape, no active head, and no byte of a line.
    pub fn start() -> Session
        ensures trial { result.trial ≡ new_trial }
        ensures session { session_in (held_of result) ≡ start }
    {
        Session {
            arrays: Arrays {
                hashes: [0; 32800],
                parents: [0; 1025],
                sequences: [0; 1025],
                counts: [0; 1025],
                flags: [0; 1025],
                tips: [0; 65],
                tails: [0; 65],
                missing: [0; 2080],
                requested: [0; 65],
                arrivals: [0; 65],
                connected: [0; 65],
            },
            trial: Trial {
                n: 0,
                m: 0,
                active: BlockSlot::NONE_REF,
            },
            begun: Begun::new(),
        }
    }

    // A chunk, no more of it than CHUNK bytes. What is returned is the place after what is printed.
    pub fn feed(&mut self, chunk: &[u8], out: &mut [u8; ROOM]) -> usize
        ensures { Feeds (held_of self.old) (take chunk_most chunk.now) out.old (held_of self.new) out.new result }
    {
        let mut page = Page::start(out);
        self.take_chunk(chunk, &mut page);
        page.at
    }

    // The last line, if it lacks its end, and the tables.
    pub fn close(&mut self, out: &mut [u8; ROOM]) -> usize
        ensures { Closes (held_of self.old) out.old (held_of self.new) out.new result }
    {
        let mut page = Page::start(out);
        self.end_last(&mut page);
        self.arrays.list(self.trial.n, self.trial.m, &mut page);
        page.at
    }
}
