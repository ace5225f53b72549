// The head table, its anchors and its caches.
ghost use Rattle.std.specs.Prelude.{◌≡◌};
ghost use Rattle.query_numbers.specs.Numbers.{or_none};
ghost use Rattle.probe.specs.Numbers.{slot_number, is_head, head_got};
ghost use Rattle.rules.specs.Hashes.{hash_at};
ghost use Rattle.rules.specs.Records.{caches_of};
ghost use Rattle.rules.specs.Caches.{recompute, refresh_head, recompute_all, next_head, connected_head_at, stored_head_tail, set_missing};
ghost use Rattle.rules.specs.Admission.{first_empty};

use crate::numbers::any_slot;
use cells::put_cell;
use query_numbers::number_or_none;
use rules::{BlockSlot, HeadSlot};

// The lowest empty head slot; NONE_REF is none.
#[unsafe(no_mangle)]
pub extern "C" fn probe_first_empty(tips: &[u32]) -> u32
    ensures { result ≡ or_none (first_empty tips.now) }
{
    number_or_none(heads::first_empty(tips))
}

// Whether there is a next head in use; its slot, tip and anchor are written to the first three places of the list.
#[unsafe(no_mangle)]
pub extern "C" fn probe_next_occupied_head(
    tips: &[u32],
    tails: &[u32],
    from: u32,
    out: &mut [u32],
) -> u32
    ensures { (result ≡ is_head (next_head tips.now tails.now from))
        × (out.new ≡ head_got (next_head tips.now tails.now from) out.old) }
{
    match head_entries::next_occupied_head(tips, tails, HeadSlot(from)) {
        Some(used) => {
            put_cell(out, 0, used.head.0);
            put_cell(out, 1, used.tip.0);
            put_cell(out, 2, used.anchor.0);
            1
        }
        None => 0,
    }
}

// The tip of a connected head; 2^32 is none, for a stored or an empty one.
#[unsafe(no_mangle)]
pub extern "C" fn probe_connected_head_at(tips: &[u32], connected: &[u8], head: u32) -> u64
    ensures { result ≡ slot_number (connected_head_at tips.now connected.now head) }
{
    any_slot(head_entries::connected_head_at(tips, connected, HeadSlot(head)))
}

// The tail of a stored head, NONE_REF among them; 2^32 is none, for a connected or an empty one.
#[unsafe(no_mangle)]
pub extern "C" fn probe_stored_head_tail(
    tips: &[u32],
    tails: &[u32],
    connected: &[u8],
    head: u32,
) -> u64
    ensures { result ≡ slot_number (stored_head_tail tips.now tails.now connected.now head) }
{
    any_slot(head_entries::stored_head_tail(tips, tails, connected, HeadSlot(head)))
}

// Sets the missing hash of a head in use; an empty head keeps its own.
#[unsafe(no_mangle)]
pub extern "C" fn probe_set_missing_parent_hash(
    tips: &[u32],
    missing: &mut [u8],
    head: u32,
    hash: &[u8],
)
    ensures { missing.new ≡ set_missing tips.now missing.old head (hash_at hash.now 0) }
{
    head_entries::set_missing_parent_hash(tips, missing, HeadSlot(head), cells::hash_at(hash, 0));
}

// Works out the caches of one head; `arriving` is NONE_REF where no block arrives.
#[unsafe(no_mangle)]
pub extern "C" fn probe_recompute_caches(
    parents: &[u32],
    sequences: &[u32],
    flags: &[u8],
    tips: &[u32],
    tails: &mut [u32],
    missing: &mut [u8],
    requested: &mut [u64],
    connected: &mut [u8],
    head: u32,
    arriving: u32,
    previous: &[u8],
)
    ensures { caches_of tails.new missing.new requested.new connected.new
        ≡ recompute parents.now sequences.now flags.now tips.now
        (caches_of tails.old missing.old requested.old connected.old) head arriving previous.now }
{
    caches::recompute_caches(
        parents,
        sequences,
        flags,
        tips,
        tails,
        missing,
        requested,
        connected,
        HeadSlot(head),
        BlockSlot(arriving),
        previous,
    );
}

// Works out the caches of the lowest head with this tip; where no head has it, nothing changes.
#[unsafe(no_mangle)]
pub extern "C" fn probe_refresh_head(
    parents: &[u32],
    sequences: &[u32],
    flags: &[u8],
    tips: &[u32],
    tails: &mut [u32],
    missing: &mut [u8],
    requested: &mut [u64],
    connected: &mut [u8],
    tip: u32,
)
    ensures { caches_of tails.new missing.new requested.new connected.new
        ≡ refresh_head parents.now sequences.now flags.now tips.now
        (caches_of tails.old missing.old requested.old connected.old) tip }
{
    all_caches::refresh_head(
        parents,
        sequences,
        flags,
        tips,
        tails,
        missing,
        requested,
        connected,
        BlockSlot(tip),
    );
}

// Works out the caches of every head in use, in slot order.
#[unsafe(no_mangle)]
pub extern "C" fn probe_recompute_all_caches(
    parents: &[u32],
    sequences: &[u32],
    flags: &[u8],
    tips: &[u32],
    tails: &mut [u32],
    missing: &mut [u8],
    requested: &mut [u64],
    connected: &mut [u8],
)
    ensures { caches_of tails.new missing.new requested.new connected.new
        ≡ recompute_all parents.now sequences.now flags.now tips.now
        (caches_of tails.old missing.old requested.old connected.old) }
{
    all_caches::recompute_all_caches(
        parents, sequences, flags, tips, tails, missing, requested, connected,
    );
}
