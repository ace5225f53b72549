// The calls that set the record, which is lent to them.
ghost use Rattle.std.specs.Prelude.{◌≡◌};
ghost use Rattle.rules.specs.Records.{tables_of};
ghost use Rattle.rules.specs.Calls.{state_of, promote as promote_rule, fresh as fresh_rule};
ghost use Rattle.rules.specs.Answers.{outcome_said, record_after};
ghost use Rattle.call_numbers.specs.Numbers.{answer_number, GivesAndSets};

use call_numbers::call_number;
use fresh_call::fresh;
use promote_call::promote;
use rules::{ActiveHead, BlockSlot, Refusal};

// Keeps what a call gives for the record; 0 is done, and after a refusal, which stands in the upper half, the record holds what it held.
fn record(answer: Result<BlockSlot, Refusal>, held: &mut ActiveHead) -> u64
    ensures number { result ≡ answer_number (outcome_said answer) }
    ensures record { held.new.slot.0 ≡ record_after answer held.old.slot.0 }
{
    if let Ok(active) = answer {
        held.slot = active;
    }
    call_number(answer.map(|_| ()))
}

// Puts the block on the active chain and names it in the record; 0 is done, and a refusal in the upper half changes nothing.
#[unsafe(no_mangle)]
pub extern "C" fn station_promote(
    hashes: &[u8],
    parents: &[u32],
    sequences: &[u32],
    counts: &[u8],
    flags: &mut [u8],
    tips: &[u32],
    tails: &mut [u32],
    missing: &mut [u8],
    requested: &mut [u64],
    arrivals: &[u64],
    connected: &mut [u8],
    held: &mut ActiveHead,
    slot: u32,
) -> u64
    ensures { GivesAndSets result held.new.slot.0
        (tables_of hashes.now parents.now sequences.now counts.now flags.new
        tips.now tails.new missing.new requested.new arrivals.now connected.new)
        (promote_rule
        (state_of (tables_of hashes.now parents.now sequences.now counts.now flags.old
        tips.now tails.old missing.old requested.old arrivals.now connected.old)
        held.old.slot.0)
        slot) }
{
    let promoted = promote(
        hashes,
        parents,
        sequences,
        counts,
        flags,
        tips,
        tails,
        missing,
        requested,
        arrivals,
        connected,
        held.slot,
        BlockSlot(slot),
    );
    record(promoted, held)
}

// Empties all slots, all heads and the record; 0 is done, and a refusal in the upper half changes nothing.
#[unsafe(no_mangle)]
pub extern "C" fn station_fresh(
    hashes: &mut [u8],
    parents: &mut [u32],
    sequences: &mut [u32],
    counts: &mut [u8],
    flags: &mut [u8],
    tips: &mut [u32],
    tails: &mut [u32],
    missing: &mut [u8],
    requested: &mut [u64],
    arrivals: &mut [u64],
    connected: &mut [u8],
    held: &mut ActiveHead,
) -> u64
    ensures { GivesAndSets result held.new.slot.0
        (tables_of hashes.new parents.new sequences.new counts.new flags.new
        tips.new tails.new missing.new requested.new arrivals.new connected.new)
        (fresh_rule
        (state_of (tables_of hashes.old parents.old sequences.old counts.old flags.old
        tips.old tails.old missing.old requested.old arrivals.old connected.old)
        held.old.slot.0)) }
{
    let emptied = fresh(
        hashes, parents, sequences, counts, flags, tips, tails, missing, requested, arrivals,
        connected, held.slot,
    );
    record(emptied, held)
}
