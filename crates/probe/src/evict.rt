// Eviction.
ghost use Rattle.std.specs.Prelude.{◌≡◌};
ghost use Rattle.query_numbers.specs.Numbers.{or_none};
ghost use Rattle.rules.specs.Records.{tables_of};
ghost use Rattle.rules.specs.Eviction.{victim, evict_one};

use query_numbers::number_or_none;
use rules::BlockSlot;

// The head slot of the victim; NONE_REF is none.
#[unsafe(no_mangle)]
pub extern "C" fn probe_select_eviction_victim(
    hashes: &[u8],
    sequences: &[u32],
    tips: &[u32],
    active: u32,
) -> u32
    ensures { result ≡ or_none (victim hashes.now sequences.now tips.now active) }
{
    number_or_none(eviction::select_eviction_victim(hashes, sequences, tips, BlockSlot(active)))
}

// Empties the victim, whose walk lowers counts and frees blocks; without a victim nothing changes.
#[unsafe(no_mangle)]
pub extern "C" fn probe_evict_one(
    hashes: &mut [u8],
    parents: &mut [u32],
    sequences: &mut [u32],
    counts: &mut [u8],
    flags: &mut [u8],
    tips: &mut [u32],
    tails: &mut [u32],
    missing: &mut [u8],
    requested: &mut [u64],
    arrivals: &mut [u64],
    connected: &mut [u8],
    active: u32,
)
    ensures { tables_of hashes.new parents.new sequences.new counts.new flags.new
        tips.new tails.new missing.new requested.new arrivals.new connected.new
        ≡ evict_one (tables_of hashes.old parents.old sequences.old counts.old flags.old
        tips.old tails.old missing.old requested.old arrivals.old connected.old) active }
{
    eviction::evict_one(
        hashes,
        parents,
        sequences,
        counts,
        flags,
        tips,
        tails,
        missing,
        requested,
        arrivals,
        connected,
        BlockSlot(active),
    );
}
