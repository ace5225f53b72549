// Eviction: which head goes, and which blocks go with it. Port of that part of src/chain_heads.rs.
#![tactic(auto)]

ghost use Rattle.std.specs.Prelude.{◌≡◌, ◌&&◌, ◌||◌, eqb, ltb};
ghost use Rattle.rules.specs.Records.{slots_of, tip_at, blocks_of, tables_of};
ghost use Rattle.rules.specs.Answers.{slot_found, head_found};
ghost use Rattle.rules.specs.Eviction.{hash_before, may_go, victim, evict_from, evict as evict_rule, evict_one};
ghost use Rattle.eviction.specs.Visit.{Visits};

use block_changes::delete;
use block_counts::adjust_head_ref_count;
use blocks::{is_occupied, is_on_active_chain};
use cells::{cell_at, slots};
use heads::{hash_before, is_used, put_head};
use rules::{BlockSlot, Head, HeadSlot, Sequence};

#[tactic(auto, unfolding(rules::specs::Eviction::may_go))]
fn may_go(sequences: &[u32], tips: &[u32], active: BlockSlot, head: HeadSlot) -> bool
    ensures { result ≡ may_go sequences.now tips.now active.0 head.0 }
{
    let tip = BlockSlot(cell_at(tips, head.0));
    is_used(tips, head) && tip != active && is_occupied(sequences, tip)
}

// Of two heads, each with its tip's sequence.
fn goes_before(
    hashes: &[u8],
    tips: &[u32],
    going: (Sequence, HeadSlot),
    best: (Sequence, HeadSlot),
) -> bool
    ensures { result
        ≡ (ltb going.0.0 best.0.0 || (eqb going.0.0 best.0.0
        && hash_before hashes.now (tip_at tips.now going.1.0) (tip_at tips.now best.1.0))) }
{
    let (sequence, head) = going;
    let (lowest, other) = best;
    if sequence != lowest {
        return sequence < lowest;
    }
    let tip = BlockSlot(cell_at(tips, head.0));
    let other_tip = BlockSlot(cell_at(tips, other.0));
    hash_before(hashes, tip, other_tip)
}

// The victim: lowest sequence, then lowest hash, then lowest slot, never the active head nor a head with an empty tip; or none.
pub fn select_eviction_victim(
    hashes: &[u8],
    sequences: &[u32],
    tips: &[u32],
    active: BlockSlot,
) -> Option<HeadSlot>
    ensures { head_found result ≡ victim hashes.now sequences.now tips.now active.0 }
{
    // A fold that tests each head: a filter's own loop would lie inside that of what follows it, and that is slower. A head whose tip has a
    // higher sequence than the best so far is left at that, before anything else of it is read.
    (0..slots(tips))
        .map(HeadSlot)
        .fold(None, |best: Option<(Sequence, HeadSlot)>, head| {
            let going = (Sequence(cell_at(sequences, cell_at(tips, head.0))), head);
            match best {
                None if may_go(sequences, tips, active, head) => Some(going),
                Some(first)
                    if going.0 <= first.0
                        && may_go(sequences, tips, active, head)
                        && goes_before(hashes, tips, going, first) => { Some(going) }
                _ => best,
            }
        })
        .map(|best| best.1)
}

// One visit of the walk; the next block to visit, if the walk goes on.
fn visit(
    hashes: &mut [u8],
    parents: &mut [u32],
    sequences: &mut [u32],
    counts: &mut [u8],
    flags: &mut [u8],
    slot: BlockSlot,
) -> Option<BlockSlot>
    ensures { Visits
        (blocks_of hashes.old parents.old sequences.old counts.old flags.old) slot.0 (slot_found result)
        (blocks_of hashes.new parents.new sequences.new counts.new flags.new) }
{
    let parent = BlockSlot(cell_at(parents, slot.0));
    let kept = is_on_active_chain(flags, slot);
    let count = adjust_head_ref_count(sequences, counts, slot, -1)?;
    if kept || count != 0 {
        return None;
    }
    delete(hashes, parents, sequences, counts, flags, slot);
    Some(parent)
}

// The walk from a tip.
fn evict_from(
    hashes: &mut [u8],
    parents: &mut [u32],
    sequences: &mut [u32],
    counts: &mut [u8],
    flags: &mut [u8],
    tip: BlockSlot,
)
    ensures { blocks_of hashes.new parents.new sequences.new counts.new flags.new
        ≡ evict_from (slots_of sequences.old)
        (blocks_of hashes.old parents.old sequences.old counts.old flags.old) tip.0 }
{
    let mut current = tip;
    for _ in 0..slots(sequences) {
        match visit(hashes, parents, sequences, counts, flags, current) {
            Some(parent) => current = parent,
            None => return,
        }
    }
}

// A head goes, and its blocks with it.
#[tactic(auto, unfolding(rules::specs::Eviction::evict))]
fn evict(
    hashes: &mut [u8],
    parents: &mut [u32],
    sequences: &mut [u32],
    counts: &mut [u8],
    flags: &mut [u8],
    tips: &mut [u32],
    tails: &mut [u32],
    missing: &mut [u8],
    requested: &mut [u64],
    arrivals: &mut [u64],
    connected: &mut [u8],
    head: HeadSlot,
)
    ensures { tables_of hashes.new parents.new sequences.new counts.new flags.new
        tips.new tails.new missing.new requested.new arrivals.new connected.new
        ≡ evict_rule (tables_of hashes.old parents.old sequences.old counts.old flags.old
        tips.old tails.old missing.old requested.old arrivals.old connected.old) head.0 }
{
    let tip = BlockSlot(cell_at(tips, head.0));
    evict_from(hashes, parents, sequences, counts, flags, tip);
    put_head(
        tips,
        tails,
        missing,
        requested,
        arrivals,
        connected,
        head,
        Head::empty(),
    );
}

// Empties the victim. The walk from its tip lowers each count by 1 and frees a block at 0, going on to its parent; an active block is
// kept and stops it. Without a victim nothing changes.
#[tactic(auto, unfolding(rules::specs::Eviction::evict_one))]
pub fn evict_one(
    hashes: &mut [u8],
    parents: &mut [u32],
    sequences: &mut [u32],
    counts: &mut [u8],
    flags: &mut [u8],
    tips: &mut [u32],
    tails: &mut [u32],
    missing: &mut [u8],
    requested: &mut [u64],
    arrivals: &mut [u64],
    connected: &mut [u8],
    active: BlockSlot,
)
    ensures { tables_of hashes.new parents.new sequences.new counts.new flags.new
        tips.new tails.new missing.new requested.new arrivals.new connected.new
        ≡ evict_one (tables_of hashes.old parents.old sequences.old counts.old flags.old
        tips.old tails.old missing.old requested.old arrivals.old connected.old) active.0 }
{
    if let Some(head) = select_eviction_victim(hashes, sequences, tips, active) {
        evict(
            hashes, parents, sequences, counts, flags, tips, tails, missing, requested, arrivals,
            connected, head,
        );
    }
}
