// Heads made anew from the blocks: port of `rebuild_from_blocks` of src/chain_heads.rs.
#![tactic(auto)]

ghost use Rattle.std.specs.Prelude.{◌≡◌, length};
ghost use Rattle.rules.specs.Records.{tables_of};
ghost use Rattle.rules.specs.Admission.{first_empty};
ghost use Rattle.rules.specs.Rebuild.{rebuild_at, rebuild_heads, rebuilt};
ghost use Rattle.named_parents.specs.Named.{named_parents};

use cells::slots;
use head_insertion::insert_head;
use heads::first_empty;
use named_parents::{is_end, name_parents};
use recount::recompute_head_ref_counts;
use rules::BlockSlot;

// A childless block becomes a head. Blocks are freed only where the head table was full.
#[tactic(auto, unfolding(rules::specs::Rebuild::rebuild_at))]
fn rebuild_at(
    hashes: &mut [u8],
    parents: &mut [u32],
    sequences: &mut [u32],
    counts: &mut [u8],
    flags: &mut [u8],
    tips: &mut [u32],
    tails: &mut [u32],
    missing: &mut [u8],
    requested: &mut [u64],
    arrivals: &mut [u64],
    connected: &mut [u8],
    named: &mut [u8],
    arrival: u64,
    active: BlockSlot,
    slot: BlockSlot,
)
    ensures { named.old ≡ named_parents parents.old sequences.old (length named.old)
        → (tables_of hashes.new parents.new sequences.new counts.new flags.new
        tips.new tails.new missing.new requested.new arrivals.new connected.new
        ≡ rebuild_at arrival active.0 slot.0
        (tables_of hashes.old parents.old sequences.old counts.old flags.old
        tips.old tails.old missing.old requested.old arrivals.old connected.old))
        × (named.new ≡ named_parents parents.new sequences.new (length named.old)) }
{
    if is_end(parents, sequences, named, slot) {
        let full = first_empty(tips).is_none();
        insert_head(
            hashes,
            parents,
            sequences,
            counts,
            flags,
            tips,
            tails,
            missing,
            requested,
            arrivals,
            connected,
            slot,
            BlockSlot::NONE_REF,
            &[0u8; 32],
            arrival,
            active,
        );
        if full {
            name_parents(parents, sequences, named);
        }
    }
}

fn rebuild_heads(
    hashes: &mut [u8],
    parents: &mut [u32],
    sequences: &mut [u32],
    counts: &mut [u8],
    flags: &mut [u8],
    tips: &mut [u32],
    tails: &mut [u32],
    missing: &mut [u8],
    requested: &mut [u64],
    arrivals: &mut [u64],
    connected: &mut [u8],
    named: &mut [u8],
    arrival: u64,
    active: BlockSlot,
)
    ensures { tables_of hashes.new parents.new sequences.new counts.new flags.new
        tips.new tails.new missing.new requested.new arrivals.new connected.new
        ≡ rebuild_heads (tables_of hashes.old parents.old sequences.old counts.old flags.old
        tips.old tails.old missing.old requested.old arrivals.old connected.old) arrival
        active.0 }
{
    name_parents(parents, sequences, named);
    for i in 0..slots(sequences) {
        rebuild_at(
            hashes,
            parents,
            sequences,
            counts,
            flags,
            tips,
            tails,
            missing,
            requested,
            arrivals,
            connected,
            named,
            arrival,
            active,
            BlockSlot(i),
        );
    }
}

// Childless blocks in slot order become heads with the given arrival time, beside the heads that are there, evicting first when full;
// then counts are set as in removal.
#[tactic(auto, unfolding(rules::specs::Rebuild::rebuilt))]
pub fn rebuild_from_blocks(
    hashes: &mut [u8],
    parents: &mut [u32],
    sequences: &mut [u32],
    counts: &mut [u8],
    flags: &mut [u8],
    tips: &mut [u32],
    tails: &mut [u32],
    missing: &mut [u8],
    requested: &mut [u64],
    arrivals: &mut [u64],
    connected: &mut [u8],
    arrival: u64,
    active: BlockSlot,
)
    ensures { tables_of hashes.new parents.new sequences.new counts.new flags.new
        tips.new tails.new missing.new requested.new arrivals.new connected.new
        ≡ rebuilt (tables_of hashes.old parents.old sequences.old counts.old flags.old
        tips.old tails.old missing.old requested.old arrivals.old connected.old) arrival active.0 }
{
    let mut named = [0u8; 1024];
    rebuild_heads(
        hashes, parents, sequences, counts, flags, tips, tails, missing, requested, arrivals,
        connected, &mut named, arrival, active,
    );
    recompute_head_ref_counts(parents, sequences, counts);
}
