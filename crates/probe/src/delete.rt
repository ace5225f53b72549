// Removal.
ghost use Rattle.std.specs.Prelude.{◌≡◌};
ghost use Rattle.rules.specs.Records.{tables_of};
ghost use Rattle.rules.specs.Removal.{recount_all, blocks_deleted};

use rules::BlockSlot;

// Every count becomes min(255, max(1, children)); an empty slot keeps its count.
#[unsafe(no_mangle)]
pub extern "C" fn probe_recompute_head_ref_counts(
    parents: &[u32],
    sequences: &[u32],
    counts: &mut [u8],
)
    ensures { counts.new ≡ recount_all parents.now sequences.now counts.old }
{
    recount::recompute_head_ref_counts(parents, sequences, counts);
}

// The listed blocks are freed already: the lowest of their heads may move to `reattach`, the rest are emptied; then caches and counts.
#[unsafe(no_mangle)]
pub extern "C" fn probe_on_blocks_deleted(
    hashes: &[u8],
    parents: &[u32],
    sequences: &[u32],
    counts: &mut [u8],
    flags: &[u8],
    tips: &mut [u32],
    tails: &mut [u32],
    missing: &mut [u8],
    requested: &mut [u64],
    arrivals: &mut [u64],
    connected: &mut [u8],
    deleted: &[u32],
    reattach: u32,
)
    ensures { tables_of hashes.now parents.now sequences.now counts.new flags.now
        tips.new tails.new missing.new requested.new arrivals.new connected.new
        ≡ blocks_deleted (tables_of hashes.now parents.now sequences.now counts.old flags.now
        tips.old tails.old missing.old requested.old arrivals.old connected.old)
        deleted.now reattach }
{
    removal::on_blocks_deleted(
        hashes,
        parents,
        sequences,
        counts,
        flags,
        tips,
        tails,
        missing,
        requested,
        arrivals,
        connected,
        deleted,
        BlockSlot(reattach),
    );
}
