// Rebuild.
ghost use Rattle.std.specs.Prelude.{◌≡◌};
ghost use Rattle.rules.specs.Records.{tables_of};
ghost use Rattle.rules.specs.Rebuild.{rebuilt};

use rules::BlockSlot;

// Childless blocks in slot order become heads, evicting first when full; then counts are set as in removal.
#[unsafe(no_mangle)]
pub extern "C" fn probe_rebuild_from_blocks(
    hashes: &mut [u8],
    parents: &mut [u32],
    sequences: &mut [u32],
    counts: &mut [u8],
    flags: &mut [u8],
    tips: &mut [u32],
    tails: &mut [u32],
    missing: &mut [u8],
    requested: &mut [u64],
    arrivals: &mut [u64],
    connected: &mut [u8],
    arrival: u64,
    active: u32,
)
    ensures { tables_of hashes.new parents.new sequences.new counts.new flags.new
        tips.new tails.new missing.new requested.new arrivals.new connected.new
        ≡ rebuilt (tables_of hashes.old parents.old sequences.old counts.old flags.old
        tips.old tails.old missing.old requested.old arrivals.old connected.old) arrival active }
{
    rebuild::rebuild_from_blocks(
        hashes,
        parents,
        sequences,
        counts,
        flags,
        tips,
        tails,
        missing,
        requested,
        arrivals,
        connected,
        arrival,
        BlockSlot(active),
    );
}
