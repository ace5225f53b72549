// Which slots are named as a parent, found in one pass: a slot that no block names has no child.
#![tactic(auto)]

ghost use Rattle.std.specs.Prelude.{◌≡◌, length};
ghost use Rattle.named_parents.specs.Named.{name_parent, named_parents, is_end as is_end_rule};

use blocks::is_occupied;
use cells::{cell_at, put_cell, slots};
use children::is_childless;
use rules::BlockSlot;

#[tactic(auto, unfolding(crate::specs::Named::name_parent))]
fn name_parent(parents: &[u32], sequences: &[u32], named: &mut [u8], child: BlockSlot)
    ensures { named.new ≡ name_parent parents.now sequences.now child.0 named.old }
{
    if is_occupied(sequences, child) {
        put_cell(named, cell_at(parents, child.0), 1);
    }
}

// A byte becomes 1 where an occupied block has its slot as parent, else 0; a parent past the last byte is left out.
pub fn name_parents(parents: &[u32], sequences: &[u32], named: &mut [u8])
    ensures { named.new ≡ named_parents parents.now sequences.now (length named.old) }
{
    named.fill(0);
    for i in 0..slots(sequences) {
        name_parent(parents, sequences, named, BlockSlot(i));
    }
}

// An occupied slot without a child; past the last byte the blocks are looked through.
#[tactic(auto, unfolding(crate::specs::Named::is_end))]
pub fn is_end(parents: &[u32], sequences: &[u32], named: &[u8], slot: BlockSlot) -> bool
    ensures { result ≡ is_end_rule parents.now sequences.now named.now slot.0 }
{
    is_occupied(sequences, slot)
        && match named.get(slot.0 as usize) {
            Some(byte) => *byte == 0,
            None => is_childless(parents, sequences, slot),
        }
}
