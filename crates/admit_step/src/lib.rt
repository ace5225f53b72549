// An admitted block: it is inserted, then the heads are told.
#![tactic(auto)]

ghost use Rattle.std.specs.Prelude.{◌≡◌};
ghost use Rattle.rules.specs.Records.{tables_of};
ghost use Rattle.rules.specs.Calls.{state_of, admit_at};

use admission::on_block_admitted;
use block_changes::insert_at;
use blocks::find_parent;
use rules::{Block, BlockSlot, Sequence};
use tail_refresh::refresh_tails;

// Inserts the block into the slot as Stored, its count 0 and its parent from `find_parent`, tells the heads and refreshes the tails.
pub fn admit_at(
    hashes: &mut [u8],
    parents: &mut [u32],
    sequences: &mut [u32],
    counts: &mut [u8],
    flags: &mut [u8],
    tips: &mut [u32],
    tails: &mut [u32],
    missing: &mut [u8],
    requested: &mut [u64],
    arrivals: &mut [u64],
    connected: &mut [u8],
    active: BlockSlot,
    slot: BlockSlot,
    sequence: Sequence,
    own: [u8; 32],
    previous: [u8; 32],
    arrival: u64,
)
    ensures { tables_of hashes.new parents.new sequences.new counts.new flags.new
        tips.new tails.new missing.new requested.new arrivals.new connected.new
        ≡ admit_at (state_of (tables_of hashes.old parents.old sequences.old counts.old flags.old
        tips.old tails.old missing.old requested.old arrivals.old connected.old) active.0)
        slot.0 sequence.0 own previous arrival }
{
    let parent = find_parent(hashes, sequences, sequence, previous);
    let block = Block {
        hash: own,
        parent: parent.unwrap_or(BlockSlot::NONE_REF),
        sequence,
        count: 0,
        flags: 0,
    };
    insert_at(hashes, parents, sequences, counts, flags, slot, block);
    on_block_admitted(
        hashes, parents, sequences, counts, flags, tips, tails, missing, requested, arrivals,
        connected, slot, parent, &previous, arrival, active,
    );
    refresh_tails(
        hashes, parents, sequences, counts, flags, tips, tails, missing, requested, arrivals,
        connected,
    );
}
