// What a block holds: the record, its count and its status.
#![tactic(auto)]

ghost use Rattle.std.specs.Prelude.{◌≡◌};
ghost use Rattle.rules.specs.Records.{status_number, status_of, blocks_of};
ghost use Rattle.rules.specs.BlockTable.{get as get_rule, head_ref_count, status_at};
ghost use Rattle.rules.specs.Answers.{status_got};

use blocks::is_occupied;
use cells::{cell_at, hash_at};
use rules::{Block, BlockSlot, BlockStatus, Sequence};

// The block in a slot; nothing for an empty or out-of-range slot.
#[tactic(auto, unfolding(rules::specs::BlockTable::get, rules::specs::Records::block_at))]
pub fn get(
    hashes: &[u8],
    parents: &[u32],
    sequences: &[u32],
    counts: &[u8],
    flags: &[u8],
    slot: BlockSlot,
) -> Option<Block>
    ensures { result ≡ get_rule
        (blocks_of hashes.now parents.now sequences.now counts.now flags.now) slot.0 }
{
    if !is_occupied(sequences, slot) {
        return None;
    }
    Some(Block {
        hash: hash_at(hashes, slot.0),
        parent: BlockSlot(cell_at(parents, slot.0)),
        sequence: Sequence(cell_at(sequences, slot.0)),
        count: cell_at(counts, slot.0),
        flags: cell_at(flags, slot.0),
    })
}

// The count of the block in a slot; nothing for an empty or out-of-range slot.
#[tactic(auto, unfolding(rules::specs::BlockTable::head_ref_count))]
pub fn head_ref_count(sequences: &[u32], counts: &[u8], slot: BlockSlot) -> Option<u8>
    ensures { result ≡ head_ref_count sequences.now counts.now slot.0 }
{
    is_occupied(sequences, slot).then_some(cell_at(counts, slot.0))
}

#[tactic(auto, unfolding(rules::specs::Records::status_of, rules::specs::Records::status_from))]
fn status_of(bits: u8) -> BlockStatus
    ensures { status_number result ≡ status_of bits }
{
    BlockStatus::of(u32::from(bits / 2 % 4))
}

// The status of the block in a slot, where 3 reads as Stored; nothing for an empty or out-of-range slot.
#[tactic(auto, unfolding(rules::specs::BlockTable::status_at))]
pub fn status(sequences: &[u32], flags: &[u8], slot: BlockSlot) -> Option<BlockStatus>
    ensures { status_got result ≡ status_at sequences.now flags.now slot.0 }
{
    is_occupied(sequences, slot).then_some(status_of(cell_at(flags, slot.0)))
}
