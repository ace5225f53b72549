// A block inserted, deleted, or given its parent.
#![tactic(auto)]

ghost use Rattle.std.specs.Prelude.{◌≡◌};
ghost use Rattle.rules.specs.Records.{occupied, put_block, blocks_of};
ghost use Rattle.rules.specs.BlockTable.{delete as delete_rule, insertion, insert as insert_rule, insert_at, resolve_parent, set_parent};
ghost use Rattle.rules.specs.Answers.{insertion_made};

use blocks::{is_occupied, next_free_index, set_occupied};
use cells::{put_cell, put_hash, slots};
use rules::{Block, BlockSlot, InsertError, Sequence};

#[tactic(auto, unfolding(rules::specs::Records::put_block))]
fn put_block(
    hashes: &mut [u8],
    parents: &mut [u32],
    sequences: &mut [u32],
    counts: &mut [u8],
    flags: &mut [u8],
    slot: BlockSlot,
    block: Block,
)
    ensures { blocks_of hashes.new parents.new sequences.new counts.new flags.new
        ≡ put_block (blocks_of hashes.old parents.old sequences.old counts.old flags.old) slot.0 block }
{
    put_hash(hashes, slot.0, block.hash);
    put_cell(parents, slot.0, block.parent.0);
    put_cell(sequences, slot.0, block.sequence.0);
    put_cell(counts, slot.0, block.count);
    put_cell(flags, slot.0, block.flags);
}

// Writes the block into the slot, be it occupied or empty; beyond n nothing changes.
#[tactic(auto, unfolding(rules::specs::BlockTable::insert_at))]
pub fn insert_at(
    hashes: &mut [u8],
    parents: &mut [u32],
    sequences: &mut [u32],
    counts: &mut [u8],
    flags: &mut [u8],
    slot: BlockSlot,
    block: Block,
)
    ensures { blocks_of hashes.new parents.new sequences.new counts.new flags.new
        ≡ insert_at (blocks_of hashes.old parents.old sequences.old counts.old flags.old) slot.0 block }
{
    if slot.0 < slots(sequences) {
        put_block(hashes, parents, sequences, counts, flags, slot, block);
    }
}

// Writes the block into the lowest empty slot, which it gives; with the reserved sequence or in a full table nothing changes.
#[tactic(auto, unfolding(rules::specs::BlockTable::insertion, rules::specs::BlockTable::insert))]
pub fn insert(
    hashes: &mut [u8],
    parents: &mut [u32],
    sequences: &mut [u32],
    counts: &mut [u8],
    flags: &mut [u8],
    block: Block,
) -> Result<BlockSlot, InsertError>
    ensures { (insertion_made result ≡ insertion sequences.old block)
        × (blocks_of hashes.new parents.new sequences.new counts.new flags.new ≡ insert_rule
        (blocks_of hashes.old parents.old sequences.old counts.old flags.old) block) }
{
    if block.sequence == Sequence::NONE_REF {
        return Err(InsertError::ReservedSequence);
    }
    let slot = next_free_index(sequences).ok_or(InsertError::Full)?;
    insert_at(hashes, parents, sequences, counts, flags, slot, block);
    Ok(slot)
}

// Makes an occupied slot the empty record and tells whether it was occupied; an empty slot keeps its fields.
#[tactic(auto, unfolding(rules::specs::BlockTable::delete))]
pub fn delete(
    hashes: &mut [u8],
    parents: &mut [u32],
    sequences: &mut [u32],
    counts: &mut [u8],
    flags: &mut [u8],
    slot: BlockSlot,
) -> bool
    ensures { (result ≡ occupied sequences.old slot.0)
        × (blocks_of hashes.new parents.new sequences.new counts.new flags.new
        ≡ delete_rule (blocks_of hashes.old parents.old sequences.old counts.old flags.old) slot.0) }
{
    if !is_occupied(sequences, slot) {
        return false;
    }
    put_block(
        hashes,
        parents,
        sequences,
        counts,
        flags,
        slot,
        Block::empty(),
    );
    true
}

// Sets the slot's parent; an empty slot is written too, and out of range nothing changes.
#[tactic(auto, unfolding(rules::specs::BlockTable::resolve_parent))]
pub fn resolve_parent_ref(parents: &mut [u32], slot: BlockSlot, parent: BlockSlot)
    ensures { parents.new ≡ resolve_parent parents.old slot.0 parent.0 }
{
    put_cell(parents, slot.0, parent.0);
}

// Sets the slot's parent and tells whether the slot is occupied; an empty slot keeps its parent.
#[tactic(auto, unfolding(rules::specs::BlockTable::set_parent))]
pub fn set_parent_ref(
    parents: &mut [u32],
    sequences: &[u32],
    slot: BlockSlot,
    parent: BlockSlot,
) -> bool
    ensures { (result ≡ occupied sequences.now slot.0)
        × (parents.new ≡ set_parent parents.old sequences.now slot.0 parent.0) }
{
    set_occupied(sequences, parents, slot, parent.0)
}
