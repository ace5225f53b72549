// Listed blocks become empty slots.
#![tactic(auto)]

ghost use Rattle.std.specs.Prelude.{◌≡◌};
ghost use Rattle.rules.specs.Records.{blocks_of};
ghost use Rattle.rules.specs.Removal.{free_all};

use block_changes::delete;
use rules::BlockSlot;

// Each listed block becomes the empty record, one after the other; a listed slot that is empty stays as it is.
pub fn free_all(
    hashes: &mut [u8],
    parents: &mut [u32],
    sequences: &mut [u32],
    counts: &mut [u8],
    flags: &mut [u8],
    deleted: &[u32],
)
    ensures { blocks_of hashes.new parents.new sequences.new counts.new flags.new
        ≡ free_all deleted.now (blocks_of hashes.old parents.old sequences.old counts.old flags.old) }
{
    for slot in deleted {
        delete(hashes, parents, sequences, counts, flags, BlockSlot(*slot));
    }
}
