// Admit's added step: heads whose tail has got a parent are worked out again.
#![tactic(auto)]

ghost use Rattle.std.specs.Prelude.{◌≡◌};
ghost use Rattle.rules.specs.Records.{blocks_of, heads_of, tables_of};
ghost use Rattle.rules.specs.Admission.{outgrown, refresh_outgrown, refresh_tails};

use all_caches::refresh_head;
use blocks::is_occupied;
use cells::{cell_at, slots};
use heads::is_stored;
use rules::{BlockSlot, HeadSlot};

fn has_outgrown(
    parents: &[u32],
    sequences: &[u32],
    tips: &[u32],
    tails: &[u32],
    connected: &[u8],
    head: HeadSlot,
) -> bool
    ensures { result ≡ outgrown parents.now sequences.now tips.now tails.now
        connected.now head.0 }
{
    let tail = BlockSlot(cell_at(tails, head.0));
    is_stored(tips, connected, head)
        && is_occupied(sequences, tail)
        && BlockSlot(cell_at(parents, tail.0)) != BlockSlot::NONE_REF
}

fn refresh_outgrown(
    hashes: &[u8],
    parents: &[u32],
    sequences: &[u32],
    counts: &[u8],
    flags: &[u8],
    tips: &[u32],
    tails: &mut [u32],
    missing: &mut [u8],
    requested: &mut [u64],
    arrivals: &[u64],
    connected: &mut [u8],
    head: HeadSlot,
)
    ensures { heads_of tips.now tails.new missing.new requested.new arrivals.now connected.new
        ≡ refresh_outgrown (blocks_of hashes.now parents.now sequences.now counts.now flags.now) head.0
        (heads_of tips.now tails.old missing.old requested.old arrivals.now connected.old) }
{
    if has_outgrown(parents, sequences, tips, tails, connected, head) {
        let tip = BlockSlot(cell_at(tips, head.0));
        refresh_head(
            parents, sequences, flags, tips, tails, missing, requested, connected, tip,
        );
    }
}

// In slot order, for each stored head whose cached tail is occupied and now has a parent, the lowest head with its tip is refreshed.
pub fn refresh_tails(
    hashes: &[u8],
    parents: &[u32],
    sequences: &[u32],
    counts: &[u8],
    flags: &[u8],
    tips: &[u32],
    tails: &mut [u32],
    missing: &mut [u8],
    requested: &mut [u64],
    arrivals: &[u64],
    connected: &mut [u8],
)
    ensures { tables_of hashes.now parents.now sequences.now counts.now flags.now
        tips.now tails.new missing.new requested.new arrivals.now connected.new
        ≡ refresh_tails (tables_of hashes.now parents.now sequences.now counts.now flags.now
        tips.now tails.old missing.old requested.old arrivals.now connected.old) }
{
    for k in 0..slots(tips) {
        refresh_outgrown(
            hashes,
            parents,
            sequences,
            counts,
            flags,
            tips,
            tails,
            missing,
            requested,
            arrivals,
            connected,
            HeadSlot(k),
        );
    }
}
