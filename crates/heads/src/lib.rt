// The head table: look-ups, one head as a whole, and which of two tips goes before the other. Port of the lower half of
// src/chain_heads.rs, with the crates `anchor` to `all_caches`.
#![tactic(auto)]

ghost use Rattle.std.specs.Prelude.{◌≡◌, ℕ, eqb};
ghost use Rattle.rules.specs.Common.{lowest};
ghost use Rattle.rules.specs.Records.{slots_of, tip_at, used, is_connected, stored, head_count, has_stored_head, put_head, heads_of};
ghost use Rattle.rules.specs.Caches.{slot_of_head};
ghost use Rattle.rules.specs.Admission.{first_empty};
ghost use Rattle.rules.specs.Answers.{head_found};
ghost use Rattle.rules.specs.Eviction.{hash_before, block_before};

use cells::{cell_at, hash_at, hash_less, next_at, put_cell, put_hash, slots};
use rules::{BlockSlot, Head, HeadSlot, Sequence};

// Whether the head is in use: its tip is not NONE_REF. A head out of range is empty.
pub fn is_used(tips: &[u32], head: HeadSlot) -> bool
    ensures { result ≡ used tips.now head.0 }
{
    cell_at(tips, head.0) != BlockSlot::NONE_REF.0
}

// Whether the connected flag, bit 0 of its byte, is set, be the head in use or not; out of range it is not.
pub fn is_connected(connected: &[u8], head: HeadSlot) -> bool
    ensures { result ≡ is_connected connected.now head.0 }
{
    cell_at(connected, head.0) % 2 == 1
}

// Whether the head is in use and not connected.
pub fn is_stored(tips: &[u32], connected: &[u8], head: HeadSlot) -> bool
    ensures { result ≡ stored tips.now connected.now head.0 }
{
    is_used(tips, head) && !is_connected(connected, head)
}

// The lowest head slot with this tip; none for NONE_REF, which is no tip.
pub fn slot_of_head(tips: &[u32], tip: BlockSlot) -> Option<HeadSlot>
    ensures { head_found result ≡ slot_of_head tips.now tip.0 }
{
    if tip == BlockSlot::NONE_REF {
        return None;
    }
    head_with(tips, tip)
}

// The lowest empty head slot, or none where all are in use.
pub fn first_empty(tips: &[u32]) -> Option<HeadSlot>
    ensures { head_found result ≡ first_empty tips.now }
{
    head_with(tips, BlockSlot::NONE_REF)
}

fn head_with(tips: &[u32], tip: BlockSlot) -> Option<HeadSlot>
    ensures { head_found result ≡ lowest (λ (k : ℕ). eqb (tip_at tips.now k) tip.0) (slots_of tips.now) }
{
    next_at(tips, 0, tip.0).map(HeadSlot)
}

// How many heads are in use.
pub fn count(tips: &[u32]) -> u32
    ensures { result ≡ head_count tips.now }
{
    let mut heads: u32 = 0;
    // A chain that filters and counts has a loop of its own for each head, and is four times as slow.
    for k in 0..slots(tips) {
        if is_used(tips, HeadSlot(k)) {
            heads += 1;
        }
    }
    heads
}

// Whether some head is stored.
pub fn has_stored_head(tips: &[u32], connected: &[u8]) -> bool
    ensures { result ≡ has_stored_head tips.now connected.now }
{
    (0..slots(tips)).any(|k| is_stored(tips, connected, HeadSlot(k)))
}

// Writes the head into the slot, be it in use or empty; what falls past the end of a buffer is dropped.
pub fn put_head(
    tips: &mut [u32],
    tails: &mut [u32],
    missing: &mut [u8],
    requested: &mut [u64],
    arrivals: &mut [u64],
    connected: &mut [u8],
    slot: HeadSlot,
    head: Head,
)
    ensures { heads_of tips.new tails.new missing.new requested.new arrivals.new connected.new
        ≡ put_head (heads_of
        tips.old tails.old missing.old requested.old arrivals.old connected.old) slot.0 head }
{
    put_cell(tips, slot.0, head.tip.0);
    put_cell(tails, slot.0, head.tail.0);
    put_hash(missing, slot.0, head.missing);
    put_cell(requested, slot.0, head.requested);
    put_cell(arrivals, slot.0, head.arrival);
    put_cell(connected, slot.0, head.connected);
}

// Whether the first block has the lower hash; the first byte that differs decides.
pub fn hash_before(hashes: &[u8], a: BlockSlot, b: BlockSlot) -> bool
    ensures { result ≡ hash_before hashes.now a.0 b.0 }
{
    hash_less(hash_at(hashes, a.0), hash_at(hashes, b.0))
}

// Whether the first block has the lower sequence or, the sequences being equal, the lower hash.
pub fn block_before(hashes: &[u8], sequences: &[u32], a: BlockSlot, b: BlockSlot) -> bool
    ensures { result ≡ block_before hashes.now sequences.now a.0 b.0 }
{
    let first = Sequence(cell_at(sequences, a.0));
    let second = Sequence(cell_at(sequences, b.0));
    first < second || first == second && hash_before(hashes, a, b)
}
