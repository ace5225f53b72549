// Remove.
#![tactic(auto)]

ghost use Rattle.std.specs.Prelude.{◌≡◌, ℕ};
ghost use Rattle.rules.specs.Records.{parent_at, tables_of};
ghost use Rattle.rules.specs.Removal.{list_removed};
ghost use Rattle.rules.specs.Answers.{removed_said};
ghost use Rattle.rules.specs.Calls.{state_of, remove as remove_rule, Does};

use blocks::is_occupied;
use cells::cell_at;
use freeing::free_all;
use removal::on_blocks_deleted;
use rules::{BlockSlot, Refusal, View};
use shape::is_shaped;
use subtree::{any_active, mark_subtree};

// The listed blocks are freed, then the heads are told.
fn remove_listed(
    hashes: &mut [u8],
    parents: &mut [u32],
    sequences: &mut [u32],
    counts: &mut [u8],
    flags: &mut [u8],
    tips: &mut [u32],
    tails: &mut [u32],
    missing: &mut [u8],
    requested: &mut [u64],
    arrivals: &mut [u64],
    connected: &mut [u8],
    deleted: &[u32],
    root: BlockSlot,
)
    ensures { tables_of hashes.new parents.new sequences.new counts.new flags.new
        tips.new tails.new missing.new requested.new arrivals.new connected.new
        ≡ list_removed (tables_of hashes.old parents.old sequences.old counts.old flags.old
        tips.old tails.old missing.old requested.old arrivals.old connected.old)
        deleted.now (parent_at parents.old root.0) }
{
    let parent = BlockSlot(cell_at(parents, root.0));
    free_all(hashes, parents, sequences, counts, flags, deleted);
    on_blocks_deleted(
        hashes, parents, sequences, counts, flags, tips, tails, missing, requested, arrivals,
        connected, deleted, parent,
    );
}

// Frees the root's subtree, tells the heads and returns the number of blocks freed; a refusal changes nothing.
#[tactic(auto, unfolding(rules::specs::Calls::remove))]
pub fn remove(
    hashes: &mut [u8],
    parents: &mut [u32],
    sequences: &mut [u32],
    counts: &mut [u8],
    flags: &mut [u8],
    tips: &mut [u32],
    tails: &mut [u32],
    missing: &mut [u8],
    requested: &mut [u64],
    arrivals: &mut [u64],
    connected: &mut [u8],
    root: BlockSlot,
) -> Result<u32, Refusal>
    ensures { (active_head : ℕ) → Does (removed_said result)
        (tables_of hashes.new parents.new sequences.new counts.new flags.new
        tips.new tails.new missing.new requested.new arrivals.new connected.new)
        (remove_rule
        (state_of (tables_of hashes.old parents.old sequences.old counts.old flags.old
        tips.old tails.old missing.old requested.old arrivals.old connected.old) active_head)
        root.0) }
{
    let view = View {
        hashes,
        parents,
        sequences,
        counts,
        flags,
        tips,
        tails,
        missing,
        requested,
        arrivals,
        connected,
    };
    if !is_shaped(&view) {
        return Err(Refusal::Shape);
    }
    if !is_occupied(sequences, root) {
        return Err(Refusal::NoBlock);
    }
    let mut marked = [0u32; 1024];
    let count = mark_subtree(parents, sequences, root, &mut marked);
    let end = (count as usize).min(1024);
    if any_active(flags, &marked[..end]) {
        return Err(Refusal::HoldsActive);
    }
    remove_listed(
        hashes,
        parents,
        sequences,
        counts,
        flags,
        tips,
        tails,
        missing,
        requested,
        arrivals,
        connected,
        &marked[..end],
        root,
    );
    Ok(count)
}
