// The block table, looked into, and a field of it set where a block is: port of src/blocks.rs over lent buffers, a slice a field, on every
// table and with nothing asked of the caller. What a block holds and what else changes it is in the crates above; its mark_subtree is
// `subtree`.
#![tactic(auto)]

ghost use Rattle.std.specs.Prelude.{◌≡◌};
ghost use Rattle.rules.specs.Records.{occupied, active};
ghost use Rattle.rules.specs.BlockTable.{find as find_rule, next_free, find_parent, walks_to_active_chain, set_occupied};
ghost use Rattle.rules.specs.Answers.{slot_found};

use cells::{Cell, cell_at, next_at, put_cell, same_hash_at, slots};
use rules::{BlockSlot, Sequence};

// Whether the slot holds a block: its sequence is not NONE_REF. A slot out of range is empty.
#[tactic(auto, unfolding(rules::specs::Records::occupied))]
pub fn is_occupied(sequences: &[u32], slot: BlockSlot) -> bool
    ensures { result ≡ occupied sequences.now slot.0 }
{
    cell_at(sequences, slot.0) != Sequence::NONE_REF.0
}

// Whether bit 0 of the slot's flags is set, be the slot occupied or not; out of range it is not.
#[tactic(auto, unfolding(rules::specs::Records::active))]
pub fn is_on_active_chain(flags: &[u8], slot: BlockSlot) -> bool
    ensures { result ≡ active flags.now slot.0 }
{
    cell_at(flags, slot.0) % 2 == 1
}

// Sets the slot's cell of a field and tells whether the slot is occupied; an empty slot keeps its cell.
#[tactic(auto, unfolding(rules::specs::BlockTable::set_occupied))]
pub fn set_occupied<C: Cell>(sequences: &[u32], field: &mut [C], slot: BlockSlot, value: C) -> bool
    ensures { (result ≡ occupied sequences.now slot.0)
        × (field.new ≡ set_occupied sequences.now field.old slot.0 value) }
{
    let there = is_occupied(sequences, slot);
    if there {
        put_cell(field, slot.0, value);
    }
    there
}

// The lowest occupied slot with this sequence and hash; none for the reserved sequence, which no block has.
pub fn find(
    hashes: &[u8],
    sequences: &[u32],
    sequence: Sequence,
    hash: [u8; 32],
) -> Option<BlockSlot>
    ensures { slot_found result ≡ find_rule hashes.now sequences.now sequence.0 hash }
{
    if sequence == Sequence::NONE_REF {
        return None;
    }
    let mut next = next_at(sequences, 0, sequence.0);
    // From one slot that holds the sequence to the next; a chain over all slots would not skip the others.
    while let Some(i) = next {
        if same_hash_at(hashes, i, hash) {
            return Some(BlockSlot(i));
        }
        next = next_at(sequences, i + 1, sequence.0);
    }
    None
}

// The lowest empty slot, or none where all are occupied.
#[tactic(auto, using(crate::proofs::Found::next_free_slot))]
pub fn next_free_index(sequences: &[u32]) -> Option<BlockSlot>
    ensures { slot_found result ≡ next_free sequences.now }
{
    next_at(sequences, 0, Sequence::NONE_REF.0).map(BlockSlot)
}

// The lowest slot with the sequence one lower and the previous hash; sequence 0 has no parent.
#[tactic(auto, unfolding(rules::specs::BlockTable::find_parent))]
pub fn find_parent(
    hashes: &[u8],
    sequences: &[u32],
    sequence: Sequence,
    previous: [u8; 32],
) -> Option<BlockSlot>
    ensures { slot_found result ≡ find_parent hashes.now sequences.now sequence.0 previous }
{
    let below = sequence.0.checked_sub(1)?;
    find(hashes, sequences, Sequence(below), previous)
}

// Whether the parent walk from the slot meets an active block in n tries; an empty slot or a block without parent ends it.
#[tactic(auto, using(crate::proofs::Walking::visits), unfolding(rules::specs::BlockTable::walks_to_active_chain))]
pub fn walks_to_active_chain(
    parents: &[u32],
    sequences: &[u32],
    flags: &[u8],
    start: BlockSlot,
) -> bool
    ensures { result ≡ walks_to_active_chain parents.now sequences.now flags.now start.0 }
{
    let mut current = start;
    for _ in 0..slots(sequences) {
        if !is_occupied(sequences, current) {
            return false;
        }
        if is_on_active_chain(flags, current) {
            return true;
        }
        let parent = BlockSlot(cell_at(parents, current.0));
        if parent == BlockSlot::NONE_REF {
            return false;
        }
        current = parent;
    }
    false
}
