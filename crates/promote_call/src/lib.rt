// Promote: the covered core, on the record's number.
#![tactic(auto)]

ghost use Rattle.std.specs.Prelude.{◌≡◌, true};
ghost use Rattle.rules.specs.Records.{tables_of};
ghost use Rattle.rules.specs.Promotion.{promoted as promoted_rule};
ghost use Rattle.rules.specs.BlockTable.{set_on_active_chain, set_status};
ghost use Rattle.rules.specs.Answers.{outcome_said, record_after};
ghost use Rattle.rules.specs.Calls.{state_of, is_next, promote as promote_rule, Sets};

use all_caches::recompute_all_caches;
use block_flags::{set_on_active_chain, set_status};
use blocks::is_occupied;
use cells::cell_at;
use rules::{BlockSlot, BlockStatus, Refusal, View};
use shape::is_shaped;

fn is_next(parents: &[u32], active: BlockSlot, slot: BlockSlot) -> bool
    ensures { result ≡ is_next parents.now active.0 slot.0 }
{
    active == BlockSlot::NONE_REF || BlockSlot(cell_at(parents, slot.0)) == active
}

fn activate(sequences: &[u32], flags: &mut [u8], slot: BlockSlot)
    ensures { flags.new
        ≡ set_status sequences.now (set_on_active_chain sequences.now flags.old slot.0 true) slot.0 2 }
{
    set_on_active_chain(sequences, flags, slot, true);
    set_status(sequences, flags, slot, BlockStatus::Active);
}

// Flag and status, then all caches.
fn raise(
    hashes: &[u8],
    parents: &[u32],
    sequences: &[u32],
    counts: &[u8],
    flags: &mut [u8],
    tips: &[u32],
    tails: &mut [u32],
    missing: &mut [u8],
    requested: &mut [u64],
    arrivals: &[u64],
    connected: &mut [u8],
    slot: BlockSlot,
)
    ensures { tables_of hashes.now parents.now sequences.now counts.now flags.new
        tips.now tails.new missing.new requested.new arrivals.now connected.new
        ≡ promoted_rule (tables_of hashes.now parents.now sequences.now counts.now flags.old
        tips.now tails.old missing.old requested.old arrivals.now connected.old) slot.0 }
{
    activate(sequences, flags, slot);
    recompute_all_caches(
        parents, sequences, flags, tips, tails, missing, requested, connected,
    );
}

// Sets the block's flag and status Active, works out all caches and gives its slot for the record; a refusal changes nothing.
pub fn promote(
    hashes: &[u8],
    parents: &[u32],
    sequences: &[u32],
    counts: &[u8],
    flags: &mut [u8],
    tips: &[u32],
    tails: &mut [u32],
    missing: &mut [u8],
    requested: &mut [u64],
    arrivals: &[u64],
    connected: &mut [u8],
    active: BlockSlot,
    slot: BlockSlot,
) -> Result<BlockSlot, Refusal>
    ensures { Sets (outcome_said result) (record_after result active.0)
        (tables_of hashes.now parents.now sequences.now counts.now flags.new
        tips.now tails.new missing.new requested.new arrivals.now connected.new)
        (promote_rule
        (state_of (tables_of hashes.now parents.now sequences.now counts.now flags.old
        tips.now tails.old missing.old requested.old arrivals.now connected.old) active.0)
        slot.0) }
{
    let view = View {
        hashes,
        parents,
        sequences,
        counts,
        flags,
        tips,
        tails,
        missing,
        requested,
        arrivals,
        connected,
    };
    if !is_shaped(&view) {
        return Err(Refusal::Shape);
    }
    if !is_occupied(sequences, slot) {
        return Err(Refusal::NoBlock);
    }
    if !is_next(parents, active, slot) {
        return Err(Refusal::NotNext);
    }
    raise(
        hashes, parents, sequences, counts, flags, tips, tails, missing, requested, arrivals,
        connected, slot,
    );
    Ok(slot)
}
