// Admission, and admit's added step. A parent is a slot, or NONE_REF for none.
ghost use Rattle.std.specs.Prelude.{◌≡◌};
ghost use Rattle.probe.specs.Numbers.{slot_from};
ghost use Rattle.rules.specs.Records.{tables_of};
ghost use Rattle.rules.specs.Admission.{insert_head, resolve_tails, admitted, refresh_tails};

use crate::numbers::slot_from;
use rules::BlockSlot;

// Inserts a head with this tip, evicting first when full; `arriving` is NONE_REF where no block arrives.
#[unsafe(no_mangle)]
pub extern "C" fn probe_insert_head(
    hashes: &mut [u8],
    parents: &mut [u32],
    sequences: &mut [u32],
    counts: &mut [u8],
    flags: &mut [u8],
    tips: &mut [u32],
    tails: &mut [u32],
    missing: &mut [u8],
    requested: &mut [u64],
    arrivals: &mut [u64],
    connected: &mut [u8],
    tip: u32,
    arriving: u32,
    previous: &[u8],
    arrival: u64,
    active: u32,
)
    ensures { tables_of hashes.new parents.new sequences.new counts.new flags.new
        tips.new tails.new missing.new requested.new arrivals.new connected.new
        ≡ insert_head (tables_of hashes.old parents.old sequences.old counts.old flags.old
        tips.old tails.old missing.old requested.old arrivals.old connected.old) tip arriving
        previous.now arrival active }
{
    head_insertion::insert_head(
        hashes,
        parents,
        sequences,
        counts,
        flags,
        tips,
        tails,
        missing,
        requested,
        arrivals,
        connected,
        BlockSlot(tip),
        BlockSlot(arriving),
        previous,
        arrival,
        BlockSlot(active),
    );
}

// Links the late tails to the block, then works out again the heads that missed its hash; where its slot is empty nothing changes.
#[unsafe(no_mangle)]
pub extern "C" fn probe_resolve_pending_tails(
    hashes: &[u8],
    parents: &mut [u32],
    sequences: &[u32],
    counts: &mut [u8],
    flags: &[u8],
    tips: &mut [u32],
    tails: &mut [u32],
    missing: &mut [u8],
    requested: &mut [u64],
    arrivals: &mut [u64],
    connected: &mut [u8],
    block: u32,
    previous: &[u8],
)
    ensures { tables_of hashes.now parents.new sequences.now counts.new flags.now
        tips.new tails.new missing.new requested.new arrivals.new connected.new
        ≡ resolve_tails (tables_of hashes.now parents.old sequences.now counts.old flags.now
        tips.old tails.old missing.old requested.old arrivals.old connected.old) block
        previous.now }
{
    pending_tails::resolve_pending_tails(
        hashes,
        parents,
        sequences,
        counts,
        flags,
        tips,
        tails,
        missing,
        requested,
        arrivals,
        connected,
        BlockSlot(block),
        previous,
    );
}

// The block counts one more, its head is placed, and the late tails are linked.
#[unsafe(no_mangle)]
pub extern "C" fn probe_on_block_admitted(
    hashes: &mut [u8],
    parents: &mut [u32],
    sequences: &mut [u32],
    counts: &mut [u8],
    flags: &mut [u8],
    tips: &mut [u32],
    tails: &mut [u32],
    missing: &mut [u8],
    requested: &mut [u64],
    arrivals: &mut [u64],
    connected: &mut [u8],
    block: u32,
    parent: u32,
    previous: &[u8],
    arrival: u64,
    active: u32,
)
    ensures { tables_of hashes.new parents.new sequences.new counts.new flags.new
        tips.new tails.new missing.new requested.new arrivals.new connected.new
        ≡ admitted (tables_of hashes.old parents.old sequences.old counts.old flags.old
        tips.old tails.old missing.old requested.old arrivals.old connected.old) block
        (slot_from parent) previous.now arrival active }
{
    admission::on_block_admitted(
        hashes,
        parents,
        sequences,
        counts,
        flags,
        tips,
        tails,
        missing,
        requested,
        arrivals,
        connected,
        BlockSlot(block),
        slot_from(parent),
        previous,
        arrival,
        BlockSlot(active),
    );
}

// Refreshes, by its tip, each stored head whose cached tail is occupied and now has a parent.
#[unsafe(no_mangle)]
pub extern "C" fn probe_refresh_tails(
    hashes: &[u8],
    parents: &[u32],
    sequences: &[u32],
    counts: &[u8],
    flags: &[u8],
    tips: &[u32],
    tails: &mut [u32],
    missing: &mut [u8],
    requested: &mut [u64],
    arrivals: &[u64],
    connected: &mut [u8],
)
    ensures { tables_of hashes.now parents.now sequences.now counts.now flags.now
        tips.now tails.new missing.new requested.new arrivals.now connected.new
        ≡ refresh_tails (tables_of hashes.now parents.now sequences.now counts.now flags.now
        tips.now tails.old missing.old requested.old arrivals.now connected.old) }
{
    tail_refresh::refresh_tails(
        hashes, parents, sequences, counts, flags, tips, tails, missing, requested, arrivals,
        connected,
    );
}
