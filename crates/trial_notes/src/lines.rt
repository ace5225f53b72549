// Lines noted.
ghost use Rattle.std.specs.Prelude.{◌≡◌};
ghost use Rattle.trial_lines.specs.Printing.{printed};
ghost use Rattle.trial_notes.specs.declared.Noting.{Noting as NotingRule};
ghost use Rattle.trial_notes.specs.Notes.{begun_fault, next_number, noted_byte, last_noted};

use crate::faults::fault;
use crate::text::put_note;
use crate::{Noting, Reason};
use trial_lines::begun::Begun;
use trial_lines::chunks::TakesBytes;
use trial_lines::page::Page;

#[tactic(auto, unfolding(crate::specs::Notes::begun_fault))]
fn fault_of(line: &Begun) -> Option<Reason>
    ensures { result ≡ begun_fault line.now }
{
    match line.bytes() {
        Some(bytes) => fault(bytes),
        None => Some(Reason::TooLong),
    }
}

fn next_number(number: u64) -> u64
    ensures { result ≡ next_number number }
{
    number.saturating_add(1)
}

impl TakesBytes for Noting {
    ghost State = { NotingRule };

    ghost shown = { λ z. z };

    ghost one = { noted_byte };

    // A byte that ends a line has it noted.
    #[tactic(auto, unfolding(crate::specs::Notes::line_noted, crate::specs::Notes::noted_byte), using(trial_lines::proofs::Printing::printing))]
    fn take_byte(&mut self, byte: u8, page: &mut Page<'_>) {
        if let Some(line) = self.begun.take(byte) {
            put_note(page, self.number, fault_of(&line));
            self.number = next_number(self.number);
        }
    }
}

impl Noting {
    // The last line may lack its end.
    #[tactic(auto, unfolding(crate::specs::Notes::line_noted, crate::specs::Notes::last_noted), using(trial_lines::proofs::Printing::printing))]
    pub(crate) fn end_last(&self, page: &mut Page<'_>)
        ensures { page.new ≡ printed page.old (last_noted self.now) }
    {
        if self.begun.has_begun() {
            put_note(page, self.number, fault_of(&self.begun));
        }
    }
}
