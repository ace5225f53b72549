// Under: how much hangs under a block. The children of every block are listed in one pass; then it goes down the lists, from a block to its
// children and from those to theirs, and counts a block at each level at which it meets it.
#![tactic(auto)]

ghost use Rattle.std.specs.Prelude.{◌≡◌, true, List, ℕ, ◌+◌, ◌≤◌, max, length, get_or, set};
ghost use Rattle.rules.specs.Records.{NONE, slots_of, sequence_at, parent_at, occupied, viewed};
ghost use Rattle.rules.specs.Under.{hanging, highest as highest_rule};
ghost use Rattle.rules.specs.Answers.{hanging_said};
ghost use Rattle.rules.specs.Calls.{state_of, max_blocks, under as under_rule, Does};
ghost use Rattle.under_call.specs.Lists.{Listed, Placed, down_from};

use blocks::is_occupied;
use cells::{cell_at, put_cell, slots};
use rules::{BlockSlot, Hanging, Refusal, Sequence, View};
use shape::is_shaped;

// The block comes before its siblings in its parent's list.
fn list_child(parents: &[u32], first: &mut [u32], next: &mut [u32], child: BlockSlot)
    ensures { (first.new ≡ set first.old (parent_at parents.now child.0) child.0)
        × (next.new
        ≡ set next.old child.0 (get_or first.old (parent_at parents.now child.0) NONE)) }
{
    let parent = cell_at(parents, child.0);
    put_cell(next, child.0, cell_at(first, parent));
    put_cell(first, parent, child.0);
}

// The highest child of each slot goes into `first`, the sibling next below a child into `next`; NONE_REF is none.
fn list_children(parents: &[u32], sequences: &[u32], first: &mut [u32], next: &mut [u32])
    ensures { Listed parents.now sequences.now 0 first.old next.old
        → Listed parents.now sequences.now (slots_of sequences.now) first.new
        next.new }
{
    for i in 0..slots(sequences) {
        if is_occupied(sequences, BlockSlot(i)) {
            list_child(parents, first, next, BlockSlot(i));
        }
    }
}

// A child, the siblings below it, and what hangs under each, so many levels down: into the children of a block by a call with a level less,
// but into those of the last sibling, with which it ends, in this one.
fn go_down(
    sequences: &[u32],
    first: &[u32; 1024],
    next: &[u32; 1024],
    from: BlockSlot,
    levels: u32,
) -> Hanging
    requires { (levels ≤ max_blocks)
        × ((parents : List ℕ) × Placed parents sequences.now first.now next.now from.0) }
    ensures { (parents : List ℕ)
        → Placed parents sequences.now first.now next.now from.0
        → (result.blocks ≡ down_from ◌+◌ (λ _. 1) parents sequences.now levels from.0)
        × (result.highest.0
        ≡ down_from max (sequence_at sequences.now) parents sequences.now levels from.0) }
{
    let mut child = from;
    let mut left = levels;
    let mut blocks: u32 = 0;
    let mut highest = Sequence(0);
    // A level less only where the last sibling is left behind, so that no range counts the turns.
    while left > 0 {
        if child == BlockSlot::NONE_REF {
            return Hanging { blocks, highest };
        }
        blocks += 1;
        highest = highest.max(Sequence(cell_at(sequences, child.0)));
        let below = BlockSlot(cell_at(first, child.0));
        let sibling = BlockSlot(cell_at(next, child.0));
        if sibling == BlockSlot::NONE_REF {
            child = below;
            left -= 1;
        } else {
            let met = go_down(sequences, first, next, below, left - 1);
            blocks += met.blocks;
            highest = highest.max(met.highest);
            child = sibling;
        }
    }
    Hanging { blocks, highest }
}

// A block, and what hangs under it, n levels with its own.
fn met_under(parents: &[u32], sequences: &[u32], root: BlockSlot) -> Hanging
    requires { (slots_of sequences.now ≤ max_blocks) × (occupied sequences.now root.0 ≡ true) }
    ensures { (result.blocks ≡ length (hanging parents.now sequences.now root.0))
        × (result.highest.0
        ≡ highest_rule sequences.now (hanging parents.now sequences.now root.0)) }
{
    let mut first = [BlockSlot::NONE_REF.0; 1024];
    let mut next = [BlockSlot::NONE_REF.0; 1024];
    list_children(parents, sequences, &mut first, &mut next);
    let below = BlockSlot(cell_at(&first, root.0));
    let met = go_down(sequences, &first, &next, below, slots(sequences) - 1);
    let own = Sequence(cell_at(sequences, root.0));
    Hanging {
        blocks: met.blocks + 1,
        highest: own.max(met.highest),
    }
}

// How many blocks hang under the slot, n levels with its own, a block met at several of them counted at each, and the highest sequence
// among them. Nothing is written.
pub fn under(view: &View, slot: BlockSlot) -> Result<Hanging, Refusal>
    ensures { (active_head : ℕ) → Does (hanging_said result) (viewed view.now)
        (under_rule (state_of (viewed view.now) active_head) slot.0) }
{
    if !is_shaped(view) {
        return Err(Refusal::Shape);
    }
    if !is_occupied(view.sequences, slot) {
        return Err(Refusal::NoBlock);
    }
    Ok(met_under(view.parents, view.sequences, slot))
}
