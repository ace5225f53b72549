// The head of a new block: its parent's, moved up, or one more.
#![tactic(auto)]

ghost use Rattle.std.specs.Prelude.{◌≡◌, Some};
ghost use Rattle.rules.specs.Records.{tables_of};
ghost use Rattle.rules.specs.Admission.{move_up, fork as fork_rule, place_head};
ghost use Rattle.rules.specs.Answers.{slot_found};

use block_counts::adjust_head_ref_count;
use caches::recompute_caches;
use cells::put_cell;
use head_insertion::insert_head;
use heads::slot_of_head;
use rules::{BlockSlot, HeadSlot};

// The parent's head moves up to the new block.
#[tactic(auto, unfolding(rules::specs::Admission::move_up))]
fn move_up(
    hashes: &[u8],
    parents: &[u32],
    sequences: &[u32],
    counts: &[u8],
    flags: &[u8],
    tips: &mut [u32],
    tails: &mut [u32],
    missing: &mut [u8],
    requested: &mut [u64],
    arrivals: &mut [u64],
    connected: &mut [u8],
    slot: HeadSlot,
    block: BlockSlot,
    previous: &[u8],
    arrival: u64,
)
    ensures { tables_of hashes.now parents.now sequences.now counts.now flags.now
        tips.new tails.new missing.new requested.new arrivals.new connected.new
        ≡ move_up (tables_of hashes.now parents.now sequences.now counts.now flags.now
        tips.old tails.old missing.old requested.old arrivals.old connected.old) slot.0 block.0
        previous.now arrival }
{
    put_cell(tips, slot.0, block.0);
    put_cell(arrivals, slot.0, arrival);
    recompute_caches(
        parents, sequences, flags, tips, tails, missing, requested, connected, slot, block,
        previous,
    );
}

// A parent that is no head counts one more.
#[tactic(auto, unfolding(rules::specs::Admission::fork, rules::specs::BlockTable::adjust))]
fn fork(
    hashes: &mut [u8],
    parents: &mut [u32],
    sequences: &mut [u32],
    counts: &mut [u8],
    flags: &mut [u8],
    tips: &mut [u32],
    tails: &mut [u32],
    missing: &mut [u8],
    requested: &mut [u64],
    arrivals: &mut [u64],
    connected: &mut [u8],
    block: BlockSlot,
    parent: BlockSlot,
    previous: &[u8],
    arrival: u64,
    active: BlockSlot,
)
    ensures { tables_of hashes.new parents.new sequences.new counts.new flags.new
        tips.new tails.new missing.new requested.new arrivals.new connected.new
        ≡ fork_rule (tables_of hashes.old parents.old sequences.old counts.old flags.old
        tips.old tails.old missing.old requested.old arrivals.old connected.old) block.0 parent.0
        previous.now arrival active.0 }
{
    adjust_head_ref_count(sequences, counts, parent, 1);
    insert_head(
        hashes, parents, sequences, counts, flags, tips, tails, missing, requested, arrivals,
        connected, block, block, previous, arrival, active,
    );
}

#[tactic(auto, unfolding(rules::specs::Admission::place_head))]
fn place_above(
    hashes: &mut [u8],
    parents: &mut [u32],
    sequences: &mut [u32],
    counts: &mut [u8],
    flags: &mut [u8],
    tips: &mut [u32],
    tails: &mut [u32],
    missing: &mut [u8],
    requested: &mut [u64],
    arrivals: &mut [u64],
    connected: &mut [u8],
    block: BlockSlot,
    parent: BlockSlot,
    previous: &[u8],
    arrival: u64,
    active: BlockSlot,
)
    ensures { tables_of hashes.new parents.new sequences.new counts.new flags.new
        tips.new tails.new missing.new requested.new arrivals.new connected.new
        ≡ place_head (tables_of hashes.old parents.old sequences.old counts.old flags.old
        tips.old tails.old missing.old requested.old arrivals.old connected.old) block.0
        (Some parent.0) previous.now arrival active.0 }
{
    match slot_of_head(tips, parent) {
        Some(slot) => move_up(
            hashes, parents, sequences, counts, flags, tips, tails, missing, requested, arrivals,
            connected, slot, block, previous, arrival,
        ),
        None => fork(
            hashes, parents, sequences, counts, flags, tips, tails, missing, requested, arrivals,
            connected, block, parent, previous, arrival, active,
        ),
    }
}

// The parent's head, the lowest of them, moves up to the new block. A parent that is no head counts one more and a head is inserted.
// Without a parent a head is inserted.
#[tactic(auto, unfolding(rules::specs::Admission::place_head))]
pub fn place_head(
    hashes: &mut [u8],
    parents: &mut [u32],
    sequences: &mut [u32],
    counts: &mut [u8],
    flags: &mut [u8],
    tips: &mut [u32],
    tails: &mut [u32],
    missing: &mut [u8],
    requested: &mut [u64],
    arrivals: &mut [u64],
    connected: &mut [u8],
    block: BlockSlot,
    parent: Option<BlockSlot>,
    previous: &[u8],
    arrival: u64,
    active: BlockSlot,
)
    ensures { tables_of hashes.new parents.new sequences.new counts.new flags.new
        tips.new tails.new missing.new requested.new arrivals.new connected.new
        ≡ place_head (tables_of hashes.old parents.old sequences.old counts.old flags.old
        tips.old tails.old missing.old requested.old arrivals.old connected.old) block.0
        (slot_found parent) previous.now arrival active.0 }
{
    match parent {
        None => insert_head(
            hashes, parents, sequences, counts, flags, tips, tails, missing, requested, arrivals,
            connected, block, block, previous, arrival, active,
        ),
        Some(below) => place_above(
            hashes, parents, sequences, counts, flags, tips, tails, missing, requested, arrivals,
            connected, block, below, previous, arrival, active,
        ),
    }
}
