// Looking at the heads, and the rank of a branch.
ghost use Rattle.std.specs.Prelude.{◌≡◌};
ghost use Rattle.query_numbers.specs.Numbers.{or_none, yes, anchor_number};
ghost use Rattle.rules.specs.Hashes.{hash_at};
ghost use Rattle.rules.specs.Records.{head_count, has_stored_head};
ghost use Rattle.rules.specs.Anchor.{locate_anchor};
ghost use Rattle.rules.specs.Caches.{slot_of_head};
ghost use Rattle.rules.specs.Rank.{outranks};

use branch_value::Rank;
use cells::hash_at;
use query_numbers::{Numbered, anchored, number_or_none};
use rules::BlockSlot;

// How many heads are in use.
#[unsafe(no_mangle)]
pub extern "C" fn station_count(tips: &[u32]) -> u32
    ensures { result ≡ head_count tips.now }
{
    heads::count(tips)
}

// 1 if some head is stored, else 0.
#[unsafe(no_mangle)]
pub extern "C" fn station_has_stored_head(tips: &[u32], connected: &[u8]) -> u32
    ensures { result ≡ yes (has_stored_head tips.now connected.now) }
{
    heads::has_stored_head(tips, connected).number()
}

// The lowest head slot with this tip; NONE_REF is none.
#[unsafe(no_mangle)]
pub extern "C" fn station_slot_of_head(tips: &[u32], tip: u32) -> u32
    ensures { result ≡ or_none (slot_of_head tips.now tip) }
{
    number_or_none(heads::slot_of_head(tips, BlockSlot(tip)))
}

// Where the parent walk from the slot ends: the slot of a tail, or that of a connection with 2^32 added.
#[unsafe(no_mangle)]
pub extern "C" fn station_locate_anchor(
    parents: &[u32],
    sequences: &[u32],
    flags: &[u8],
    start: u32,
) -> u64
    ensures { result ≡ anchor_number (locate_anchor parents.now sequences.now flags.now start) }
{
    anchored(anchor::locate_anchor(parents, sequences, flags, BlockSlot(start)))
}

// 1 if the first branch has the higher value, then the greater length, then the lower hash, else 0.
#[unsafe(no_mangle)]
pub extern "C" fn station_outranks(
    value: u64,
    len: u16,
    hash: &[u8],
    value2: u64,
    len2: u16,
    hash2: &[u8],
) -> u32
    ensures { result
        ≡ yes
        (outranks (record { value = value; length = len; hash = hash_at hash.now 0 })
        (record { value = value2; length = len2; hash = hash_at hash2.now 0 })) }
{
    let first = Rank {
        value,
        len,
        hash: hash_at(hash, 0),
    };
    let second = Rank {
        value: value2,
        len: len2,
        hash: hash_at(hash2, 0),
    };
    first.outranks(second).number()
}
