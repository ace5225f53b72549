// The missing hash of a head.
#![tactic(auto)]

ghost use Rattle.std.specs.Prelude.{◌≡◌, ◌*◌, take, drop};
ghost use Rattle.rules.specs.Hashes.{hash_length};
ghost use Rattle.rules.specs.Caches.{waits_at, knowing as knowing_rule, missing_part, missing_kept};

use cells::{cell_at, hash_at, next_at, put_hash, slots};
use heads::is_stored;
use rules::{BlockSlot, HeadSlot};

fn waits_at(tips: &[u32], tails: &[u32], connected: &[u8], tail: BlockSlot, head: HeadSlot) -> bool
    ensures { result ≡ waits_at tips.now tails.now connected.now tail.0 head.0 }
{
    cell_at(tails, head.0) == tail.0 && is_stored(tips, connected, head)
}

// The lowest stored head with this cached tail, else the head itself.
fn knowing(
    tips: &[u32],
    tails: &[u32],
    connected: &[u8],
    tail: BlockSlot,
    head: HeadSlot,
) -> HeadSlot
    ensures { result.0 ≡ knowing_rule tips.now tails.now connected.now tail.0 head.0 }
{
    if slots(tails) != slots(tips) {
        return knowing_by_head(tips, tails, connected, tail, head);
    }
    let mut next = next_at(tails, 0, tail.0);
    // From one head with this tail to the next; a chain over all heads would not skip the others.
    while let Some(k) = next {
        if is_stored(tips, connected, HeadSlot(k)) {
            return HeadSlot(k);
        }
        next = next_at(tails, k + 1, tail.0);
    }
    head
}

// The same where not every head has a tail of its own.
fn knowing_by_head(
    tips: &[u32],
    tails: &[u32],
    connected: &[u8],
    tail: BlockSlot,
    head: HeadSlot,
) -> HeadSlot
    ensures { result.0 ≡ knowing_rule tips.now tails.now connected.now tail.0 head.0 }
{
    (0..slots(tips))
        .map(HeadSlot)
        .find(|other| waits_at(tips, tails, connected, tail, *other))
        .unwrap_or(head)
}

// What a buffer has of the 32 bytes in a place of hashes.
fn hash_part(bytes: &[u8], at: u32) -> &[u8]
    ensures { result.now ≡ take hash_length (drop (at * hash_length) bytes.now) }
{
    let from = at as usize * 32;
    let rest = &bytes[from.min(bytes.len())..];
    &rest[..rest.len().min(32)]
}

// A part of the arriving block's previous hash where the tail is that block, else of what the heads know.
pub fn missing_part<'a>(
    previous: &'a [u8],
    missing: &'a [u8],
    tail: BlockSlot,
    arriving: BlockSlot,
    known: HeadSlot,
) -> &'a [u8]
    ensures { result.now ≡ missing_part previous.now missing.now tail.0 arriving.0 known.0 }
{
    if tail == arriving {
        return hash_part(previous, 0);
    }
    hash_part(missing, known.0)
}

// From the part that the tail picks; a head that knows its own keeps it.
pub fn keep_missing_hash(
    tips: &[u32],
    tails: &[u32],
    missing: &mut [u8],
    connected: &[u8],
    head: HeadSlot,
    tail: BlockSlot,
    arriving: BlockSlot,
    previous: &[u8],
)
    ensures { missing.new
        ≡ missing_kept tips.now tails.now missing.old connected.now head.0 tail.0
        arriving.0 previous.now }
{
    let mut known = head;
    if tail != arriving {
        known = knowing(tips, tails, connected, tail, head);
        if known == head {
            return;
        }
    }
    let hash = hash_at(missing_part(previous, missing, tail, arriving, known), 0);
    put_hash(missing, head.0, hash);
}
