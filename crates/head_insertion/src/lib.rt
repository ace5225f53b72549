// A head inserted: in the lowest empty slot, and a full head table evicts first.
#![tactic(auto)]

ghost use Rattle.std.specs.Prelude.{◌≡◌};
ghost use Rattle.rules.specs.Records.{put_head, heads_of, tables_of};
ghost use Rattle.rules.specs.Caches.{head_recomputed};
ghost use Rattle.rules.specs.Admission.{new_head, seat_head, make_room, insert_head};

use caches::recompute_caches;
use eviction::evict_one;
use heads::{first_empty, put_head};
use rules::{BlockSlot, Head, HeadSlot};

// A new head in a slot, its caches worked out.
fn seat_at(
    parents: &[u32],
    sequences: &[u32],
    flags: &[u8],
    tips: &mut [u32],
    tails: &mut [u32],
    missing: &mut [u8],
    requested: &mut [u64],
    arrivals: &mut [u64],
    connected: &mut [u8],
    slot: HeadSlot,
    tip: BlockSlot,
    arriving: BlockSlot,
    previous: &[u8],
    arrival: u64,
)
    ensures { heads_of tips.new tails.new missing.new requested.new arrivals.new connected.new
        ≡ head_recomputed parents.now sequences.now flags.now
        (put_head (heads_of
        tips.old tails.old missing.old requested.old arrivals.old connected.old) slot.0 (new_head tip.0 arrival)) slot.0
        arriving.0 previous.now }
{
    let head = Head {
        tip,
        tail: tip,
        missing: [0u8; 32],
        requested: 0,
        arrival,
        connected: 0,
    };
    put_head(
        tips, tails, missing, requested, arrivals, connected, slot, head,
    );
    recompute_caches(
        parents, sequences, flags, tips, tails, missing, requested, connected, slot, arriving,
        previous,
    );
}

// In the lowest empty slot, if there is one.
#[tactic(auto, unfolding(rules::specs::Admission::seat_head))]
fn seat_head(
    hashes: &[u8],
    parents: &[u32],
    sequences: &[u32],
    counts: &[u8],
    flags: &[u8],
    tips: &mut [u32],
    tails: &mut [u32],
    missing: &mut [u8],
    requested: &mut [u64],
    arrivals: &mut [u64],
    connected: &mut [u8],
    tip: BlockSlot,
    arriving: BlockSlot,
    previous: &[u8],
    arrival: u64,
)
    ensures { tables_of hashes.now parents.now sequences.now counts.now flags.now
        tips.new tails.new missing.new requested.new arrivals.new connected.new
        ≡ seat_head (tables_of hashes.now parents.now sequences.now counts.now flags.now
        tips.old tails.old missing.old requested.old arrivals.old connected.old) tip.0 arriving.0
        previous.now arrival }
{
    if let Some(slot) = first_empty(tips) {
        seat_at(
            parents, sequences, flags, tips, tails, missing, requested, arrivals, connected, slot,
            tip, arriving, previous, arrival,
        );
    }
}

// A full head table evicts.
#[tactic(auto, unfolding(rules::specs::Admission::make_room))]
fn make_room(
    hashes: &mut [u8],
    parents: &mut [u32],
    sequences: &mut [u32],
    counts: &mut [u8],
    flags: &mut [u8],
    tips: &mut [u32],
    tails: &mut [u32],
    missing: &mut [u8],
    requested: &mut [u64],
    arrivals: &mut [u64],
    connected: &mut [u8],
    active: BlockSlot,
)
    ensures { tables_of hashes.new parents.new sequences.new counts.new flags.new
        tips.new tails.new missing.new requested.new arrivals.new connected.new
        ≡ make_room (tables_of hashes.old parents.old sequences.old counts.old flags.old
        tips.old tails.old missing.old requested.old arrivals.old connected.old) active.0 }
{
    if first_empty(tips).is_none() {
        evict_one(
            hashes, parents, sequences, counts, flags, tips, tails, missing, requested, arrivals,
            connected, active,
        );
    }
}

// A head with this tip, request time 0 and the given arrival time takes the lowest empty slot, and its caches are worked out. A full
// head table evicts first; without a victim the tip gets no head.
#[tactic(auto, unfolding(rules::specs::Admission::insert_head))]
pub fn insert_head(
    hashes: &mut [u8],
    parents: &mut [u32],
    sequences: &mut [u32],
    counts: &mut [u8],
    flags: &mut [u8],
    tips: &mut [u32],
    tails: &mut [u32],
    missing: &mut [u8],
    requested: &mut [u64],
    arrivals: &mut [u64],
    connected: &mut [u8],
    tip: BlockSlot,
    arriving: BlockSlot,
    previous: &[u8],
    arrival: u64,
    active: BlockSlot,
)
    ensures { tables_of hashes.new parents.new sequences.new counts.new flags.new
        tips.new tails.new missing.new requested.new arrivals.new connected.new
        ≡ insert_head (tables_of hashes.old parents.old sequences.old counts.old flags.old
        tips.old tails.old missing.old requested.old arrivals.old connected.old) tip.0 arriving.0
        previous.now arrival active.0 }
{
    make_room(
        hashes, parents, sequences, counts, flags, tips, tails, missing, requested, arrivals,
        connected, active,
    );
    seat_head(
        hashes, parents, sequences, counts, flags, tips, tails, missing, requested, arrivals,
        connected, tip, arriving, previous, arrival,
    );
}
