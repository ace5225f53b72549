// What has come of a line.
ghost use Rattle.std.specs.Prelude.{◌≡◌, [], eqb, if◌then◌else◌, Some, None, IfSome, IfNone};
ghost use Rattle.trial_lines.specs.Begun.{so_far, too_long, longer, has_begun as has_begun_rule, line_begun};

use crate::Line;
use crate::read::read_line;
use std::marker::Model;
use std::mem;

const MOST: usize = 128;

// The bytes that have come, at the front of zeros, and how many they are; no bytes and one too many where they are more than a line has.
#[derive(Clone, Copy)]
pub struct Begun {
    bytes: [u8; MOST],
    count: usize,
}

impl Model for Begun {
    ghost use Rattle.std.specs.Prelude.{◌≡◌};
    ghost use Rattle.trial_lines.specs.Begun.{Begun as BegunRule};
    ghost use Rattle.trial_lines.specs.Padded.{begun_of, bytes_of, count_of};

    ghost Value = { BegunRule };

    ghost view = { λ b. begun_of b.bytes b.count };

    ghost inverse = { λ begun. record { bytes = bytes_of begun; count = count_of begun } };

    ghost invariant = { λ b. record { bytes = bytes_of (begun_of b.bytes b.count); count = count_of (begun_of b.bytes b.count) } ≡ b };
}

impl Begun {
    // Before anything came.
    #[tactic(auto, unfolding(crate::specs::Padded::begun_of, crate::specs::Padded::bytes_of, crate::specs::Padded::count_of))]
    pub fn new() -> Begun
        ensures { result ≡ so_far [] }
    {
        Begun {
            bytes: [0; MOST],
            count: 0,
        }
    }

    #[tactic(auto, unfolding(crate::specs::Padded::begun_of, crate::specs::Padded::bytes_of, crate::specs::Padded::count_of))]
    fn too_long() -> Begun
        ensures { result ≡ too_long }
    {
        Begun {
            bytes: [0; MOST],
            count: MOST + 1,
        }
    }

    // A byte more: one that finds no room is one too many.
    #[tactic(auto, unfolding(crate::specs::Begun::longer))]
    pub fn join(&mut self, byte: u8)
        ensures { self.new ≡ longer self.old byte }
    {
        if self.count < MOST {
            self.bytes[self.count] = byte;
            self.count += 1;
        } else if self.count == MOST {
            *self = Begun::too_long();
        }
    }

    // The byte 10 ends a line, which is returned, and the next begins; any other joins it.
    pub fn take(&mut self, byte: u8) -> Option<Begun>
        ensures line { result ≡ if eqb byte 10 then Some self.old else None }
        ensures left { self.new ≡ if eqb byte 10 then so_far [] else longer self.old byte }
    {
        if byte == b'\n' {
            return Some(mem::replace(self, Begun::new()));
        }
        self.join(byte);
        None
    }

    // Whether any byte has come.
    #[tactic(auto, unfolding(crate::specs::Begun::has_begun))]
    pub fn has_begun(&self) -> bool
        ensures { result ≡ has_begun_rule self.now }
    {
        self.count != 0
    }

    // The bytes that have come; none where they are too many.
    pub fn bytes(&self) -> Option<&[u8]>
        ensures some { IfSome result (λ bytes. self.now ≡ so_far bytes.now) }
        ensures none { IfNone result (self.now ≡ too_long) }
    {
        if self.count <= MOST {
            Some(&self.bytes[..self.count])
        } else {
            None
        }
    }

    // What it asks for as a whole line.
    #[tactic(auto, unfolding(crate::specs::Begun::line_begun))]
    pub fn line(&self) -> Option<Line>
        ensures { result ≡ line_begun self.now }
    {
        read_line(self.bytes()?)
    }
}
