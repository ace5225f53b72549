// Whether a block has children.
#![tactic(auto)]

ghost use Rattle.std.specs.Prelude.{◌≡◌, not};
ghost use Rattle.rules.specs.BlockTable.{child_of, childless};

use blocks::is_occupied;
use cells::{cell_at, slots};
use rules::BlockSlot;

#[tactic(auto, unfolding(rules::specs::BlockTable::child_of))]
fn is_child(parents: &[u32], sequences: &[u32], slot: BlockSlot, child: BlockSlot) -> bool
    ensures { result ≡ child_of parents.now sequences.now slot.0 child.0 }
{
    is_occupied(sequences, child) && BlockSlot(cell_at(parents, child.0)) == slot
}

// Whether an occupied block has this slot as its parent, be the slot itself occupied or not.
pub fn has_child(parents: &[u32], sequences: &[u32], slot: BlockSlot) -> bool
    ensures { result ≡ not (childless parents.now sequences.now slot.0) }
{
    (0..slots(sequences))
        .map(BlockSlot)
        .any(|child| is_child(parents, sequences, slot, child))
}

// Whether no occupied block has this slot as its parent; the slot itself may be empty.
pub fn is_childless(parents: &[u32], sequences: &[u32], slot: BlockSlot) -> bool
    ensures { result ≡ childless parents.now sequences.now slot.0 }
{
    !has_child(parents, sequences, slot)
}
