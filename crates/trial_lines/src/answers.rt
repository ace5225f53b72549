// The line that a call's answer prints: the call's letter and what it returned, or `E` and the refusal's number.
ghost use Rattle.std.specs.Prelude.{◌≡◌, []};
ghost use Rattle.rules.specs.Answers.{refusal_number, outcome_said, admitted_said, removed_said, hanging_said, timer_said};
ghost use Rattle.trial_lines.specs.Writing.{letter_line, number_line};
ghost use Rattle.trial_lines.specs.Printing.{printed};
ghost use Rattle.trial_lines.specs.Said.{said};

use crate::lines::{hanging_line, letter_line, none_due_line, number_line, request_line};
use crate::page::Page;
use query_numbers::Numbered;
use rules::{BlockSlot, Hanging, Refusal, Request};

// `E` and the refusal's number.
pub fn refusal_line(page: &mut Page<'_>, why: Refusal)
    ensures { page.new ≡ printed page.old (number_line 69 (refusal_number why)) }
{
    number_line(page, b'E', why.number())
}

// Fresh prints a refusal alone.
#[tactic(auto, using(crate::proofs::Printing::printing))]
pub fn fresh_line(page: &mut Page<'_>, answer: Result<BlockSlot, Refusal>)
    ensures { page.new ≡ printed page.old (said [] (outcome_said answer)) }
{
    match answer {
        Ok(_) => {}
        Err(why) => refusal_line(page, why),
    }
}

// `A` and the new slot, or the refusal.
pub fn admit_line(page: &mut Page<'_>, answer: Result<BlockSlot, Refusal>)
    ensures { page.new ≡ printed page.old (said [] (admitted_said answer)) }
{
    match answer {
        Ok(slot) => number_line(page, b'A', slot.0),
        Err(why) => refusal_line(page, why),
    }
}

// `P` and the slot that was given, or the refusal.
pub fn promote_line(page: &mut Page<'_>, answer: Result<BlockSlot, Refusal>, slot: BlockSlot)
    ensures { page.new ≡ printed page.old (said (number_line 80 slot.0) (outcome_said answer)) }
{
    match answer {
        Ok(_) => number_line(page, b'P', slot.0),
        Err(why) => refusal_line(page, why),
    }
}

// `D` and the number of blocks freed, or the refusal.
pub fn remove_line(page: &mut Page<'_>, answer: Result<u32, Refusal>)
    ensures { page.new ≡ printed page.old (said [] (removed_said answer)) }
{
    match answer {
        Ok(blocks) => number_line(page, b'D', blocks),
        Err(why) => refusal_line(page, why),
    }
}

// `U`, the number of blocks under the slot and the highest sequence among them, or the refusal.
pub fn under_line(page: &mut Page<'_>, answer: Result<Hanging, Refusal>)
    ensures { page.new ≡ printed page.old (said [] (hanging_said answer)) }
{
    match answer {
        Ok(hanging) => hanging_line(page, hanging),
        Err(why) => refusal_line(page, why),
    }
}

// `T`, the head, the claimed sequence and the missing hash, or `T -` where none is due, or the refusal.
pub fn timer_line(page: &mut Page<'_>, answer: Result<Option<Request>, Refusal>)
    ensures { page.new ≡ printed page.old (said [] (timer_said answer)) }
{
    match answer {
        Ok(Some(request)) => request_line(page, request),
        Ok(None) => none_due_line(page),
        Err(why) => refusal_line(page, why),
    }
}

// `R` alone, or the refusal.
pub fn restart_line(page: &mut Page<'_>, answer: Result<(), Refusal>)
    ensures { page.new ≡ printed page.old (said (letter_line 82) (outcome_said answer)) }
{
    match answer {
        Ok(()) => letter_line(page, b'R'),
        Err(why) => refusal_line(page, why),
    }
}
