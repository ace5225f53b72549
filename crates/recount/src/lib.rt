// The count of every block from its children, in three passes over the slots.
#![tactic(auto)]

ghost use Rattle.std.specs.Prelude.{◌≡◌};
ghost use Rattle.rules.specs.Common.{in_order};
ghost use Rattle.rules.specs.Records.{slots_of};
ghost use Rattle.rules.specs.Removal.{recount_all};
ghost use Rattle.recount.specs.Passes.{clear_count, count_child, raise_count};

use block_counts::{adjust_head_ref_count, set_head_ref_count};
use blocks::is_occupied;
use cells::{cell_at, put_cell, slots};
use rules::BlockSlot;

#[tactic(auto, using(crate::proofs::Turns::turns), unfolding(crate::specs::Passes::clear_count))]
fn clear_counts(sequences: &[u32], counts: &mut [u8])
    ensures { counts.new
        ≡ in_order (clear_count sequences.now) (slots_of sequences.now) counts.old }
{
    for i in 0..slots(sequences) {
        set_head_ref_count(sequences, counts, BlockSlot(i), 0);
    }
}

// The block counts for its parent, if that is a slot.
#[tactic(auto, unfolding(crate::specs::Passes::count_child))]
fn count_child(parents: &[u32], sequences: &[u32], counts: &mut [u8], child: BlockSlot)
    ensures { counts.new ≡ count_child parents.now sequences.now child.0 counts.old }
{
    if !is_occupied(sequences, child) {
        return;
    }
    let parent = cell_at(parents, child.0);
    if parent < slots(sequences) {
        adjust_head_ref_count(sequences, counts, BlockSlot(parent), 1);
    }
}

#[tactic(auto, using(crate::proofs::Turns::turns))]
fn count_children(parents: &[u32], sequences: &[u32], counts: &mut [u8])
    ensures { counts.new
        ≡ in_order (count_child parents.now sequences.now) (slots_of sequences.now) counts.old }
{
    for i in 0..slots(sequences) {
        count_child(parents, sequences, counts, BlockSlot(i));
    }
}

#[tactic(auto, unfolding(crate::specs::Passes::raise_count))]
fn raise_count(sequences: &[u32], counts: &mut [u8], slot: BlockSlot)
    ensures { counts.new ≡ raise_count sequences.now slot.0 counts.old }
{
    if is_occupied(sequences, slot) && cell_at(counts, slot.0) == 0 {
        put_cell(counts, slot.0, 1);
    }
}

#[tactic(auto, using(crate::proofs::Turns::turns))]
fn raise_counts(sequences: &[u32], counts: &mut [u8])
    ensures { counts.new
        ≡ in_order (raise_count sequences.now) (slots_of sequences.now) counts.old }
{
    for i in 0..slots(sequences) {
        raise_count(sequences, counts, BlockSlot(i));
    }
}

// Every count becomes min(255, max(1, children)); an empty slot keeps its count.
#[tactic(auto, using(crate::proofs::Recount::three_passes))]
pub fn recompute_head_ref_counts(parents: &[u32], sequences: &[u32], counts: &mut [u8])
    ensures { counts.new ≡ recount_all parents.now sequences.now counts.old }
{
    clear_counts(sequences, counts);
    count_children(parents, sequences, counts);
    raise_counts(sequences, counts);
}
