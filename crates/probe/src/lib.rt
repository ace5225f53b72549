// C entry points of the functions below the calls, for the comparison with the Rust alone. Each passes its function's
// equation on; an answer is a number: NONE_REF is none, and 1 and 0 are yes and no.
#![tactic(auto)]

ghost use Rattle.std.specs.Prelude.{◌≡◌, not, eqb};
ghost use Rattle.query_numbers.specs.Numbers.{or_none, yes};
ghost use Rattle.probe.specs.Numbers.{insertion_number};
ghost use Rattle.rules.specs.Hashes.{hash_at, hash_less};
ghost use Rattle.rules.specs.Records.{occupied, status_from, blocks_of, block_of};
ghost use Rattle.rules.specs.BlockTable.{adjusted_at, adjust_counts, set_occupied, set_on_active_chain, set_status, delete, insertion, insert, insert_at, resolve_parent, set_parent};
ghost use Rattle.rules.specs.declared.Block.{Block};

pub mod admit;
pub mod delete;
pub mod evict;
pub mod head_table;
pub mod numbers;
pub mod recover;
pub mod restore;

use crate::numbers::inserted;
use query_numbers::{Numbered, number_or_none};
use rules::{Block, BlockSlot, BlockStatus, Sequence};

// 1 if the first hash is the lower, else 0: the first byte that differs decides.
#[unsafe(no_mangle)]
pub extern "C" fn probe_hash_less(a: &[u8], b: &[u8]) -> u32
    ensures { result ≡ yes (hash_less (hash_at a.now 0) (hash_at b.now 0)) }
{
    cells::hash_less(cells::hash_at(a, 0), cells::hash_at(b, 0)).number()
}

// Adds the change to the count and answers with the new one, held from 0 to 255; NONE_REF is an empty slot, which keeps its count.
#[unsafe(no_mangle)]
pub extern "C" fn probe_adjust_head_ref_count(
    sequences: &[u32],
    counts: &mut [u8],
    slot: u32,
    change: i8,
) -> u32
    ensures { (result ≡ or_none (adjusted_at sequences.now counts.old slot change))
        × (counts.new ≡ adjust_counts sequences.now counts.old slot change) }
{
    number_or_none(block_counts::adjust_head_ref_count(sequences, counts, BlockSlot(slot), change))
}

// Sets the count; 1 if the slot is occupied, else 0 and nothing changes.
#[unsafe(no_mangle)]
pub extern "C" fn probe_set_head_ref_count(
    sequences: &[u32],
    counts: &mut [u8],
    slot: u32,
    count: u8,
) -> u32
    ensures { (result ≡ yes (occupied sequences.now slot))
        × (counts.new ≡ set_occupied sequences.now counts.old slot count) }
{
    block_counts::set_head_ref_count(sequences, counts, BlockSlot(slot), count).number()
}

// Sets bit 0 of the flags, or clears it where the value is 0; 1 if the slot is occupied, else 0 and nothing changes.
#[unsafe(no_mangle)]
pub extern "C" fn probe_set_on_active_chain(
    sequences: &[u32],
    flags: &mut [u8],
    slot: u32,
    value: u32,
) -> u32
    ensures { (result ≡ yes (occupied sequences.now slot))
        × (flags.new ≡ set_on_active_chain sequences.now flags.old slot (not (eqb value 0))) }
{
    block_flags::set_on_active_chain(sequences, flags, BlockSlot(slot), value != 0).number()
}

// Sets the status, 1 Connected, 2 Active, any other number Stored; 1 if the slot is occupied, else 0 and nothing changes.
#[unsafe(no_mangle)]
pub extern "C" fn probe_set_status(
    sequences: &[u32],
    flags: &mut [u8],
    slot: u32,
    status: u32,
) -> u32
    ensures { (result ≡ yes (occupied sequences.now slot))
        × (flags.new ≡ set_status sequences.now flags.old slot (status_from status)) }
{
    block_flags::set_status(sequences, flags, BlockSlot(slot), BlockStatus::of(status)).number()
}

// Writes the block into the slot, be it occupied or empty; beyond n nothing changes.
#[unsafe(no_mangle)]
pub extern "C" fn probe_insert_at(
    hashes: &mut [u8],
    parents: &mut [u32],
    sequences: &mut [u32],
    counts: &mut [u8],
    flags: &mut [u8],
    slot: u32,
    hash: &[u8],
    parent: u32,
    sequence: u32,
    count: u8,
    bits: u8,
)
    ensures { blocks_of hashes.new parents.new sequences.new counts.new flags.new
        ≡ insert_at (blocks_of hashes.old parents.old sequences.old counts.old flags.old) slot
        (block_of (hash_at hash.now 0) parent sequence count bits) }
{
    let block = Block {
        hash: cells::hash_at(hash, 0),
        parent: BlockSlot(parent),
        sequence: Sequence(sequence),
        count,
        flags: bits,
    };
    block_changes::insert_at(
        hashes,
        parents,
        sequences,
        counts,
        flags,
        BlockSlot(slot),
        block,
    );
}

// The lowest empty slot, which the block gets; 2^32 is the reserved sequence and one more a full table, and then nothing changes.
#[unsafe(no_mangle)]
pub extern "C" fn probe_insert(
    hashes: &mut [u8],
    parents: &mut [u32],
    sequences: &mut [u32],
    counts: &mut [u8],
    flags: &mut [u8],
    hash: &[u8],
    parent: u32,
    sequence: u32,
    count: u8,
    bits: u8,
) -> u64
    ensures { (result
        ≡ insertion_number
        (insertion sequences.old
        (block_of (hash_at hash.now 0) parent sequence count bits)))
        × (blocks_of hashes.new parents.new sequences.new counts.new flags.new
        ≡ insert (blocks_of hashes.old parents.old sequences.old counts.old flags.old)
        (block_of (hash_at hash.now 0) parent sequence count bits)) }
{
    let block = Block {
        hash: cells::hash_at(hash, 0),
        parent: BlockSlot(parent),
        sequence: Sequence(sequence),
        count,
        flags: bits,
    };
    inserted(block_changes::insert(hashes, parents, sequences, counts, flags, block))
}

// Empties the slot; 1 if it was occupied, else 0 and nothing changes.
#[unsafe(no_mangle)]
pub extern "C" fn probe_delete(
    hashes: &mut [u8],
    parents: &mut [u32],
    sequences: &mut [u32],
    counts: &mut [u8],
    flags: &mut [u8],
    slot: u32,
) -> u32
    ensures { (result ≡ yes (occupied sequences.old slot))
        × (blocks_of hashes.new parents.new sequences.new counts.new flags.new ≡ delete
        (blocks_of hashes.old parents.old sequences.old counts.old flags.old) slot) }
{
    block_changes::delete(hashes, parents, sequences, counts, flags, BlockSlot(slot)).number()
}

// Sets the parent; an empty slot is written too.
#[unsafe(no_mangle)]
pub extern "C" fn probe_resolve_parent_ref(parents: &mut [u32], slot: u32, parent: u32)
    ensures { parents.new ≡ resolve_parent parents.old slot parent }
{
    block_changes::resolve_parent_ref(parents, BlockSlot(slot), BlockSlot(parent));
}

// Sets the parent; 1 if the slot is occupied, else 0 and nothing changes.
#[unsafe(no_mangle)]
pub extern "C" fn probe_set_parent_ref(
    parents: &mut [u32],
    sequences: &[u32],
    slot: u32,
    parent: u32,
) -> u32
    ensures { (result ≡ yes (occupied sequences.now slot))
        × (parents.new ≡ set_parent parents.old sequences.now slot parent) }
{
    block_changes::set_parent_ref(parents, sequences, BlockSlot(slot), BlockSlot(parent)).number()
}
