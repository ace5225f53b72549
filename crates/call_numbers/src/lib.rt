// The numbers that stand for the answers of the calls.
#![tactic(auto)]

ghost use Rattle.std.specs.Prelude.{◌≡◌, ◌*◌};
ghost use Rattle.rules.specs.Answers.{refusal_number, hanging_said, timer_said, deadline_said};
ghost use Rattle.call_numbers.specs.Numbers.{answer_number, result_number, claimed_to, wanted_to, time_to, highest_to, span_from};

use cells::{put_cell, put_hash};
use query_numbers::Numbered;
use rules::{Hanging, HeadSlot, Refusal, Request};

// The refusal in the upper half.
fn refusal(why: Refusal) -> u64
    ensures { result ≡ refusal_number why * 4294967296 }
{
    u64::from(why.number()) * 4294967296
}

// What a call gives, as its number, or the refusal in the upper half.
pub fn call_number<A: Numbered>(answer: Result<A, Refusal>) -> u64
    ensures { result ≡ result_number A.number answer }
{
    match answer {
        Ok(given) => u64::from(given.number()),
        Err(refused) => refusal(refused),
    }
}

// How many blocks hang, with the highest sequence among them written to the first place of the list, or the refusal in the upper half.
pub fn hanging_number(answer: Result<Hanging, Refusal>, highest: &mut [u32]) -> u64
    ensures { (result ≡ answer_number (hanging_said answer))
        × (highest.new ≡ highest_to (hanging_said answer) highest.old) }
{
    match answer {
        Ok(hanging) => {
            put_cell(highest, 0, hanging.highest.0);
            u64::from(hanging.blocks)
        }
        Err(why) => refusal(why),
    }
}

// The head, its claimed sequence and its missing hash.
pub fn timed_number(
    answer: Result<Option<Request>, Refusal>,
    claimed: &mut [u32],
    wanted: &mut [u8],
) -> u64
    ensures { (result ≡ answer_number (timer_said answer))
        × ((claimed.new ≡ claimed_to (timer_said answer) claimed.old)
        × (wanted.new ≡ wanted_to (timer_said answer) wanted.old)) }
{
    match answer {
        Ok(Some(request)) => {
            put_cell(claimed, 0, request.claimed.0);
            put_hash(wanted, 0, request.missing);
            u64::from(request.head.0)
        }
        Ok(None) => u64::from(HeadSlot::NONE_REF.0),
        Err(why) => refusal(why),
    }
}

// 1, with the time written to the first place of the list, or 0 for never, or the refusal in the upper half.
pub fn deadline_number(answer: Result<Option<u64>, Refusal>, time: &mut [u64]) -> u64
    ensures { (result ≡ answer_number (deadline_said answer))
        × (time.new ≡ time_to (deadline_said answer) time.old) }
{
    match answer {
        Ok(Some(due)) => {
            put_cell(time, 0, due);
            1
        }
        Ok(None) => 0,
        Err(why) => refusal(why),
    }
}

// The retry span, unset where `given` is 0; a span of 0 ticks is a span.
#[tactic(auto, unfolding(crate::specs::Numbers::span_from))]
pub fn span_from(given: u32, span: u64) -> Option<u64>
    ensures { result ≡ span_from given span }
{
    (given != 0).then_some(span)
}
