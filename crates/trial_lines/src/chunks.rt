// Bytes taken one after the other.
ghost use Rattle.std.specs.Prelude.{ℕ, take};
ghost use Rattle.trial_lines.specs.Begun.{chunk_most};
ghost use Rattle.trial_lines.specs.Fed.{Fed, Leaves, fed};

use crate::CHUNK;
use crate::page::Page;

// What takes bytes and prints: `one` says what a byte leaves of what is shown, and what it prints.
pub trait TakesBytes {
    ghost State: { Type 0 };

    ghost shown: { Self → State };

    ghost one: { State → ℕ → Fed State };

    fn take_byte(&mut self, byte: u8, page: &mut Page<'_>)
        ensures { Leaves (one (shown self.old) byte) page.old (shown self.new) page.new };

    // A chunk, no more of it than CHUNK bytes.
    final fn take_chunk(&mut self, chunk: &[u8], page: &mut Page<'_>)
        ensures { Leaves (fed one (shown self.old) (take chunk_most chunk.now)) page.old (shown self.new) page.new }
    {
        for byte in &chunk[..chunk.len().min(CHUNK)] {
            self.take_byte(*byte, page);
        }
    }
}
