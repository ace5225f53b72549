// The late tails are linked, then the heads that missed the new hash are worked out again.
#![tactic(auto)]

ghost use Rattle.std.specs.Prelude.{◌≡◌};
ghost use Rattle.rules.specs.Hashes.{hash_at};
ghost use Rattle.rules.specs.Records.{blocks_of, heads_of, tables_of};
ghost use Rattle.rules.specs.Admission.{recompute_missed, recompute_missing, resolve_tails};

use blocks::is_occupied;
use caches::recompute_caches;
use cells::{cell_at, hash_at, slots};
use late_links::{link_tails, misses};
use rules::{BlockSlot, HeadSlot, Sequence};

fn recompute_missed(
    hashes: &[u8],
    parents: &[u32],
    sequences: &[u32],
    counts: &[u8],
    flags: &[u8],
    tips: &[u32],
    tails: &mut [u32],
    missing: &mut [u8],
    requested: &mut [u64],
    arrivals: &[u64],
    connected: &mut [u8],
    block: BlockSlot,
    hash: [u8; 32],
    previous: &[u8],
    head: HeadSlot,
)
    ensures { heads_of tips.now tails.new missing.new requested.new arrivals.now connected.new
        ≡ recompute_missed
        (blocks_of hashes.now parents.now sequences.now counts.now flags.now) block.0 hash previous.now head.0
        (heads_of tips.now tails.old missing.old requested.old arrivals.now connected.old) }
{
    if misses(tips, missing, connected, hash, head) {
        recompute_caches(
            parents, sequences, flags, tips, tails, missing, requested, connected, head, block,
            previous,
        );
    }
}

fn recompute_missing(
    hashes: &[u8],
    parents: &[u32],
    sequences: &[u32],
    counts: &[u8],
    flags: &[u8],
    tips: &[u32],
    tails: &mut [u32],
    missing: &mut [u8],
    requested: &mut [u64],
    arrivals: &[u64],
    connected: &mut [u8],
    block: BlockSlot,
    previous: &[u8],
)
    ensures { tables_of hashes.now parents.now sequences.now counts.now flags.now
        tips.now tails.new missing.new requested.new arrivals.now connected.new
        ≡ recompute_missing (tables_of hashes.now parents.now sequences.now counts.now flags.now
        tips.now tails.old missing.old requested.old arrivals.now connected.old) block.0
        (hash_at hashes.now block.0) previous.now }
{
    let hash = hash_at(hashes, block.0);
    for k in 0..slots(tips) {
        recompute_missed(
            hashes,
            parents,
            sequences,
            counts,
            flags,
            tips,
            tails,
            missing,
            requested,
            arrivals,
            connected,
            block,
            hash,
            previous,
            HeadSlot(k),
        );
    }
}

// Links the late tails, then works out again all stored heads that missed the new block's hash; if its slot is empty both are left out.
pub fn resolve_pending_tails(
    hashes: &[u8],
    parents: &mut [u32],
    sequences: &[u32],
    counts: &mut [u8],
    flags: &[u8],
    tips: &mut [u32],
    tails: &mut [u32],
    missing: &mut [u8],
    requested: &mut [u64],
    arrivals: &mut [u64],
    connected: &mut [u8],
    block: BlockSlot,
    previous: &[u8],
)
    ensures { tables_of hashes.now parents.new sequences.now counts.new flags.now
        tips.new tails.new missing.new requested.new arrivals.new connected.new
        ≡ resolve_tails (tables_of hashes.now parents.old sequences.now counts.old flags.now
        tips.old tails.old missing.old requested.old arrivals.old connected.old) block.0
        previous.now }
{
    if is_occupied(sequences, block) {
        let sequence = Sequence(cell_at(sequences, block.0));
        link_tails(
            hashes, parents, sequences, counts, flags, tips, tails, missing, requested, arrivals,
            connected, block, sequence,
        );
        recompute_missing(
            hashes, parents, sequences, counts, flags, tips, tails, missing, requested, arrivals,
            connected, block, previous,
        );
    }
}
