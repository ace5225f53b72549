// The count of a block, changed and set.
#![tactic(auto)]

ghost use Rattle.std.specs.Prelude.{◌≡◌};
ghost use Rattle.rules.specs.Records.{occupied};
ghost use Rattle.rules.specs.BlockTable.{adjusted_at, adjust_counts, set_occupied};

use blocks::set_occupied;
use cells::cell_at;
use rules::BlockSlot;

// Adds a signed change to the count, which stops at 0 and 255, and gives the new count; on an empty slot it gives and changes nothing.
#[tactic(auto, unfolding(rules::specs::BlockTable::adjusted, rules::specs::BlockTable::adjusted_at, rules::specs::BlockTable::adjust_counts, rules::specs::BlockTable::set_occupied))]
pub fn adjust_head_ref_count(
    sequences: &[u32],
    counts: &mut [u8],
    slot: BlockSlot,
    change: i8,
) -> Option<u8>
    ensures { (result ≡ adjusted_at sequences.now counts.old slot.0 change)
        × (counts.new ≡ adjust_counts sequences.now counts.old slot.0 change) }
{
    let next = cell_at(counts, slot.0).saturating_add_signed(change);
    set_occupied(sequences, counts, slot, next).then_some(next)
}

// Sets the slot's count and tells whether the slot is occupied; an empty slot keeps its count.
pub fn set_head_ref_count(sequences: &[u32], counts: &mut [u8], slot: BlockSlot, count: u8) -> bool
    ensures { (result ≡ occupied sequences.now slot.0)
        × (counts.new ≡ set_occupied sequences.now counts.old slot.0 count) }
{
    set_occupied(sequences, counts, slot, count)
}
