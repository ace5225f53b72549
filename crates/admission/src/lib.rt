// Admission: the new block's head, then the late tails. Port of `on_block_admitted` of src/chain_heads.rs.
#![tactic(auto)]

ghost use Rattle.std.specs.Prelude.{◌≡◌};
ghost use Rattle.rules.specs.Records.{tables_of};
ghost use Rattle.rules.specs.Admission.{admitted};
ghost use Rattle.rules.specs.Answers.{slot_found};

use block_counts::adjust_head_ref_count;
use head_placement::place_head;
use pending_tails::resolve_pending_tails;
use rules::BlockSlot;

// The new block counts one more and its head is placed. Then the late tails are linked and the heads that missed its hash are worked out
// again; if the eviction freed the new block itself, both are left out.
#[tactic(auto, unfolding(rules::specs::Admission::admitted, rules::specs::BlockTable::adjust))]
pub fn on_block_admitted(
    hashes: &mut [u8],
    parents: &mut [u32],
    sequences: &mut [u32],
    counts: &mut [u8],
    flags: &mut [u8],
    tips: &mut [u32],
    tails: &mut [u32],
    missing: &mut [u8],
    requested: &mut [u64],
    arrivals: &mut [u64],
    connected: &mut [u8],
    block: BlockSlot,
    parent: Option<BlockSlot>,
    previous: &[u8],
    arrival: u64,
    active: BlockSlot,
)
    ensures { tables_of hashes.new parents.new sequences.new counts.new flags.new
        tips.new tails.new missing.new requested.new arrivals.new connected.new
        ≡ admitted (tables_of hashes.old parents.old sequences.old counts.old flags.old
        tips.old tails.old missing.old requested.old arrivals.old connected.old) block.0
        (slot_found parent) previous.now arrival active.0 }
{
    adjust_head_ref_count(sequences, counts, block, 1);
    place_head(
        hashes, parents, sequences, counts, flags, tips, tails, missing, requested, arrivals,
        connected, block, parent, previous, arrival, active,
    );
    resolve_pending_tails(
        hashes, parents, sequences, counts, flags, tips, tails, missing, requested, arrivals,
        connected, block, previous,
    );
}
