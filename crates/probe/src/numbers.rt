// The numbers that stand for answers, and the slot that a number stands for.
ghost use Rattle.std.specs.Prelude.{◌≡◌};
ghost use Rattle.probe.specs.Numbers.{ask_number, insertion_number, slot_number, slot_from};
ghost use Rattle.rules.specs.Answers.{slot_found, insertion_made, ask_chosen};

use rules::{BlockSlot, InsertError, Recovery};

// The head slot times 2^32 plus the claimed sequence; the highest 64-bit number is none due.
pub fn asked(r: Option<Recovery>) -> u64
    ensures { result ≡ ask_number (ask_chosen r) }
{
    match r {
        Some(recovery) => u64::from(recovery.head.0) * 4294967296 + u64::from(recovery.claimed.0),
        None => u64::MAX,
    }
}

// The slot; 2^32 is the reserved sequence, and one more a full table.
pub fn inserted(r: Result<BlockSlot, InsertError>) -> u64
    ensures { result ≡ insertion_number (insertion_made r) }
{
    match r {
        Ok(slot) => u64::from(slot.0),
        Err(InsertError::ReservedSequence) => 4294967296,
        Err(InsertError::Full) => 4294967297,
    }
}

// The slot, NONE_REF among them; 2^32 is none.
pub fn any_slot(f: Option<BlockSlot>) -> u64
    ensures { result ≡ slot_number (slot_found f) }
{
    match f {
        Some(slot) => u64::from(slot.0),
        None => 4294967296,
    }
}

// The slot that a number stands for; NONE_REF is none.
#[tactic(auto, unfolding(crate::specs::Numbers::slot_from))]
pub fn slot_from(slot: u32) -> Option<BlockSlot>
    ensures { slot_found result ≡ slot_from slot }
{
    if slot == BlockSlot::NONE_REF.0 {
        None
    } else {
        Some(BlockSlot(slot))
    }
}
