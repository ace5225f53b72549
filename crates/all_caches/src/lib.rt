// The caches of heads with no arriving block: of one head, and of all.
#![tactic(auto)]

ghost use Rattle.std.specs.Prelude.{◌≡◌};
ghost use Rattle.rules.specs.Hashes.{zero_hash};
ghost use Rattle.rules.specs.Records.{NONE, caches_of};
ghost use Rattle.rules.specs.Caches.{recompute, refresh_head, recompute_used, recompute_all};

use caches::recompute_caches;
use cells::slots;
use heads::{is_used, slot_of_head};
use rules::{BlockSlot, HeadSlot};

// Of a head with no arriving block.
fn recompute_alone(
    parents: &[u32],
    sequences: &[u32],
    flags: &[u8],
    tips: &[u32],
    tails: &mut [u32],
    missing: &mut [u8],
    requested: &mut [u64],
    connected: &mut [u8],
    head: HeadSlot,
)
    ensures { caches_of tails.new missing.new requested.new connected.new
        ≡ recompute parents.now sequences.now flags.now tips.now
        (caches_of tails.old missing.old requested.old connected.old) head.0 NONE zero_hash }
{
    let zeros = [0u8; 32];
    recompute_caches(
        parents,
        sequences,
        flags,
        tips,
        tails,
        missing,
        requested,
        connected,
        head,
        BlockSlot::NONE_REF,
        &zeros,
    );
}

// Works out the caches of the lowest head with this tip again; where no head has it, nothing changes.
pub fn refresh_head(
    parents: &[u32],
    sequences: &[u32],
    flags: &[u8],
    tips: &[u32],
    tails: &mut [u32],
    missing: &mut [u8],
    requested: &mut [u64],
    connected: &mut [u8],
    tip: BlockSlot,
)
    ensures { caches_of tails.new missing.new requested.new connected.new
        ≡ refresh_head parents.now sequences.now flags.now tips.now
        (caches_of tails.old missing.old requested.old connected.old) tip.0 }
{
    if let Some(head) = slot_of_head(tips, tip) {
        recompute_alone(
            parents, sequences, flags, tips, tails, missing, requested, connected, head,
        );
    }
}

fn recompute_used(
    parents: &[u32],
    sequences: &[u32],
    flags: &[u8],
    tips: &[u32],
    tails: &mut [u32],
    missing: &mut [u8],
    requested: &mut [u64],
    connected: &mut [u8],
    head: HeadSlot,
)
    ensures { caches_of tails.new missing.new requested.new connected.new
        ≡ recompute_used parents.now sequences.now flags.now tips.now head.0
        (caches_of tails.old missing.old requested.old connected.old) }
{
    if is_used(tips, head) {
        recompute_alone(
            parents, sequences, flags, tips, tails, missing, requested, connected, head,
        );
    }
}

// Works out the caches of every head in use again, in slot order; an empty head keeps its fields.
pub fn recompute_all_caches(
    parents: &[u32],
    sequences: &[u32],
    flags: &[u8],
    tips: &[u32],
    tails: &mut [u32],
    missing: &mut [u8],
    requested: &mut [u64],
    connected: &mut [u8],
)
    ensures { caches_of tails.new missing.new requested.new connected.new
        ≡ recompute_all parents.now sequences.now flags.now tips.now
        (caches_of tails.old missing.old requested.old connected.old) }
{
    for k in 0..slots(tips) {
        recompute_used(
            parents,
            sequences,
            flags,
            tips,
            tails,
            missing,
            requested,
            connected,
            HeadSlot(k),
        );
    }
}
