// After blocks are freed: the heads that lost their tip, then the caches of all heads, then the counts. Port of the removal part
// of src/chain_heads.rs.
#![tactic(auto)]

ghost use Rattle.std.specs.Prelude.{◌≡◌};
ghost use Rattle.rules.specs.Records.{heads_of, tables_of};
ghost use Rattle.rules.specs.Removal.{drop_head, drop_heads, blocks_deleted};
ghost use Rattle.rules.specs.Answers.{head_found};

use all_caches::recompute_all_caches;
use cells::{put_cell, slots};
use heads::put_head;
use heirs::{heir, is_head_freed};
use recount::recompute_head_ref_counts;
use rules::{BlockSlot, Head, HeadSlot};

#[tactic(auto, unfolding(rules::specs::Removal::drop_head))]
fn drop_head(
    tips: &mut [u32],
    tails: &mut [u32],
    missing: &mut [u8],
    requested: &mut [u64],
    arrivals: &mut [u64],
    connected: &mut [u8],
    deleted: &[u32],
    moving: Option<HeadSlot>,
    reattach: BlockSlot,
    head: HeadSlot,
)
    ensures { heads_of tips.new tails.new missing.new requested.new arrivals.new connected.new
        ≡ drop_head deleted.now (head_found moving) reattach.0 head.0
        (heads_of tips.old tails.old missing.old requested.old arrivals.old connected.old) }
{
    if moving == Some(head) {
        put_cell(tips, head.0, reattach.0);
    } else if is_head_freed(tips, deleted, head) {
        put_head(
            tips,
            tails,
            missing,
            requested,
            arrivals,
            connected,
            head,
            Head::empty(),
        );
    }
}

fn drop_heads(
    tips: &mut [u32],
    tails: &mut [u32],
    missing: &mut [u8],
    requested: &mut [u64],
    arrivals: &mut [u64],
    connected: &mut [u8],
    deleted: &[u32],
    moving: Option<HeadSlot>,
    reattach: BlockSlot,
)
    ensures { heads_of tips.new tails.new missing.new requested.new arrivals.new connected.new
        ≡ drop_heads deleted.now (head_found moving) reattach.0
        (heads_of tips.old tails.old missing.old requested.old arrivals.old connected.old) }
{
    for k in 0..slots(tips) {
        drop_head(
            tips,
            tails,
            missing,
            requested,
            arrivals,
            connected,
            deleted,
            moving,
            reattach,
            HeadSlot(k),
        );
    }
}

// The listed blocks are freed already; `reattach` is the parent of their root.
#[tactic(auto, unfolding(rules::specs::Removal::blocks_deleted))]
pub fn on_blocks_deleted(
    hashes: &[u8],
    parents: &[u32],
    sequences: &[u32],
    counts: &mut [u8],
    flags: &[u8],
    tips: &mut [u32],
    tails: &mut [u32],
    missing: &mut [u8],
    requested: &mut [u64],
    arrivals: &mut [u64],
    connected: &mut [u8],
    deleted: &[u32],
    reattach: BlockSlot,
)
    ensures { tables_of hashes.now parents.now sequences.now counts.new flags.now
        tips.new tails.new missing.new requested.new arrivals.new connected.new
        ≡ blocks_deleted (tables_of hashes.now parents.now sequences.now counts.old flags.now
        tips.old tails.old missing.old requested.old arrivals.old connected.old)
        deleted.now reattach.0 }
{
    let moving = heir(parents, sequences, tips, deleted, reattach);
    drop_heads(
        tips, tails, missing, requested, arrivals, connected, deleted, moving, reattach,
    );
    recompute_all_caches(
        parents, sequences, flags, tips, tails, missing, requested, connected,
    );
    recompute_head_ref_counts(parents, sequences, counts);
}
