// Single heads: the next in use, the tip of a connected one, the tail of a stored one, and a missing hash set. Port of what other
// parts of a station ask of src/chain_heads.rs; its `occupied_heads` is `next_occupied_head`, called again one slot higher.
#![tactic(auto)]

ghost use Rattle.std.specs.Prelude.{◌≡◌};
ghost use Rattle.rules.specs.Caches.{next_head, connected_head_at, stored_head_tail, set_missing};
ghost use Rattle.rules.specs.Answers.{slot_found, head_in_use};

use cells::{cell_at, put_hash, slots};
use heads::{is_connected, is_stored, is_used};
use rules::{BlockSlot, HeadSlot, UsedHead};

// The lowest head in use from this slot on, with its tip and its anchor, or none.
pub fn next_occupied_head(tips: &[u32], tails: &[u32], from: HeadSlot) -> Option<UsedHead>
    ensures { head_in_use result ≡ next_head tips.now tails.now from.0 }
{
    (from.0..slots(tips))
        .map(HeadSlot)
        .find(|head| is_used(tips, *head))
        .map(|head| UsedHead {
            head,
            tip: BlockSlot(cell_at(tips, head.0)),
            anchor: BlockSlot(cell_at(tails, head.0)),
        })
}

// The tip of a connected head; nothing for a stored or an empty one.
#[tactic(auto, unfolding(rules::specs::Caches::connected_head_at))]
pub fn connected_head_at(tips: &[u32], connected: &[u8], head: HeadSlot) -> Option<BlockSlot>
    ensures { slot_found result ≡ connected_head_at tips.now connected.now head.0 }
{
    let tip = BlockSlot(cell_at(tips, head.0));
    (is_used(tips, head) && is_connected(connected, head)).then_some(tip)
}

// The tail of a stored head; nothing for a connected or an empty one.
#[tactic(auto, unfolding(rules::specs::Caches::stored_head_tail))]
pub fn stored_head_tail(
    tips: &[u32],
    tails: &[u32],
    connected: &[u8],
    head: HeadSlot,
) -> Option<BlockSlot>
    ensures { slot_found result ≡ stored_head_tail tips.now tails.now connected.now head.0 }
{
    is_stored(tips, connected, head).then_some(BlockSlot(cell_at(tails, head.0)))
}

// Sets the missing hash of a head in use; an empty head keeps its own.
#[tactic(auto, unfolding(rules::specs::Caches::set_missing))]
pub fn set_missing_parent_hash(tips: &[u32], missing: &mut [u8], head: HeadSlot, hash: [u8; 32])
    ensures { missing.new ≡ set_missing tips.now missing.old head.0 hash }
{
    if is_used(tips, head) {
        put_hash(missing, head.0, hash);
    }
}
