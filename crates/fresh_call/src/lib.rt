// Fresh: the covered core, on the record's number.
#![tactic(auto)]

ghost use Rattle.std.specs.Prelude.{◌≡◌};
ghost use Rattle.rules.specs.Records.{tables_of};
ghost use Rattle.rules.specs.Answers.{outcome_said, record_after};
ghost use Rattle.rules.specs.Calls.{state_of, fresh as fresh_rule, Sets};

use empties::{empty_blocks, empty_heads};
use rules::{BlockSlot, Refusal, View};
use shape::is_shaped;

// Empties all slots and all heads and gives NONE_REF for the record; a refusal changes nothing.
pub fn fresh(
    hashes: &mut [u8],
    parents: &mut [u32],
    sequences: &mut [u32],
    counts: &mut [u8],
    flags: &mut [u8],
    tips: &mut [u32],
    tails: &mut [u32],
    missing: &mut [u8],
    requested: &mut [u64],
    arrivals: &mut [u64],
    connected: &mut [u8],
    active: BlockSlot,
) -> Result<BlockSlot, Refusal>
    ensures { Sets (outcome_said result) (record_after result active.0)
        (tables_of hashes.new parents.new sequences.new counts.new flags.new
        tips.new tails.new missing.new requested.new arrivals.new connected.new)
        (fresh_rule
        (state_of (tables_of hashes.old parents.old sequences.old counts.old flags.old
        tips.old tails.old missing.old requested.old arrivals.old connected.old) active.0)) }
{
    let view = View {
        hashes,
        parents,
        sequences,
        counts,
        flags,
        tips,
        tails,
        missing,
        requested,
        arrivals,
        connected,
    };
    if !is_shaped(&view) {
        return Err(Refusal::Shape);
    }
    empty_blocks(hashes, parents, sequences, counts, flags);
    empty_heads(tips, tails, missing, requested, arrivals, connected);
    Ok(BlockSlot::NONE_REF)
}
