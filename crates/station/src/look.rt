// Looking at the blocks.
ghost use Rattle.std.specs.Prelude.{◌≡◌, length, [], ◌∷◌};
ghost use Rattle.std.proofs.lemmas.List.Edits.{sets};
ghost use Rattle.query_numbers.specs.Numbers.{or_none, yes};
ghost use Rattle.station.specs.Blocks.{Gets};
ghost use Rattle.rules.specs.Hashes.{hash_at};
ghost use Rattle.rules.specs.Records.{blocks_of};
ghost use Rattle.rules.specs.BlockTable.{find, next_free, find_parent, get, head_ref_count, status_at, mark_subtree, walks_to_active_chain};

use query_numbers::{Numbered, number_or_none};
use rules::{BlockSlot, Sequence};

fn put_words(words: &mut [u32], parent: u32, sequence: u32, count: u8, flags: u8)
    ensures { words.new ≡ sets words.old 0 (parent ∷ sequence ∷ count ∷ flags ∷ []) }
{
    cells::put_cell(words, 0, parent);
    cells::put_cell(words, 1, sequence);
    cells::put_cell(words, 2, count as u32);
    cells::put_cell(words, 3, flags as u32);
}

// The lowest occupied slot with this sequence and hash; NONE_REF is none.
#[unsafe(no_mangle)]
pub extern "C" fn station_find(hashes: &[u8], sequences: &[u32], sequence: u32, hash: &[u8]) -> u32
    ensures { result ≡ or_none (find hashes.now sequences.now sequence (hash_at hash.now 0)) }
{
    number_or_none(blocks::find(
        hashes,
        sequences,
        Sequence(sequence),
        cells::hash_at(hash, 0),
    ))
}

// The lowest empty slot; NONE_REF is none.
#[unsafe(no_mangle)]
pub extern "C" fn station_next_free_index(sequences: &[u32]) -> u32
    ensures { result ≡ or_none (next_free sequences.now) }
{
    number_or_none(blocks::next_free_index(sequences))
}

// The lowest slot with the sequence one lower and the previous hash; NONE_REF is none, and sequence 0 has none.
#[unsafe(no_mangle)]
pub extern "C" fn station_find_parent(
    hashes: &[u8],
    sequences: &[u32],
    sequence: u32,
    previous: &[u8],
) -> u32
    ensures { result
        ≡ or_none (find_parent hashes.now sequences.now sequence (hash_at previous.now 0)) }
{
    number_or_none(blocks::find_parent(
        hashes,
        sequences,
        Sequence(sequence),
        cells::hash_at(previous, 0),
    ))
}

// 1 if the slot is occupied, with its hash in the one list and parent, sequence, count and flags in the other; else 0, and nothing is
// written.
#[unsafe(no_mangle)]
pub extern "C" fn station_get(
    hashes: &[u8],
    parents: &[u32],
    sequences: &[u32],
    counts: &[u8],
    flags: &[u8],
    slot: u32,
    hash: &mut [u8],
    words: &mut [u32],
) -> u32
    ensures { Gets (get
        (blocks_of hashes.now parents.now sequences.now counts.now flags.now) slot) hash.old words.old result
        hash.new words.new }
{
    let Some(block) = block_reading::get(hashes, parents, sequences, counts, flags, BlockSlot(slot))
    else {
        return 0;
    };
    cells::put_hash(hash, 0, block.hash);
    put_words(
        words,
        block.parent.0,
        block.sequence.0,
        block.count,
        block.flags,
    );
    1
}

// The count of the block in a slot; NONE_REF for an empty or out-of-range slot.
#[unsafe(no_mangle)]
pub extern "C" fn station_head_ref_count(sequences: &[u32], counts: &[u8], slot: u32) -> u32
    ensures { result ≡ or_none (head_ref_count sequences.now counts.now slot) }
{
    number_or_none(block_reading::head_ref_count(sequences, counts, BlockSlot(slot)))
}

// The block's status, 0 Stored, 1 Connected, 2 Active; NONE_REF for an empty or out-of-range slot.
#[unsafe(no_mangle)]
pub extern "C" fn station_status(sequences: &[u32], flags: &[u8], slot: u32) -> u32
    ensures { result ≡ or_none (status_at sequences.now flags.now slot) }
{
    number_or_none(block_reading::status(sequences, flags, BlockSlot(slot)))
}

// How many blocks the root's subtree has, 0 where the root is empty; their slots are written in order, as far as the list has room.
#[unsafe(no_mangle)]
pub extern "C" fn station_mark_subtree(
    parents: &[u32],
    sequences: &[u32],
    root: u32,
    out: &mut [u32],
) -> u32
    ensures { (result ≡ length (mark_subtree parents.now sequences.now root))
        × (out.new ≡ sets out.old 0 (mark_subtree parents.now sequences.now root)) }
{
    subtree::mark_subtree(parents, sequences, BlockSlot(root), out)
}

// 1 if the parent walk from the slot meets an active block in n tries, else 0.
#[unsafe(no_mangle)]
pub extern "C" fn station_walks_to_active_chain(
    parents: &[u32],
    sequences: &[u32],
    flags: &[u8],
    start: u32,
) -> u32
    ensures { result ≡ yes (walks_to_active_chain parents.now sequences.now flags.now start) }
{
    blocks::walks_to_active_chain(parents, sequences, flags, BlockSlot(start)).number()
}
