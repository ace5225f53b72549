// Tables emptied: each cell holds what an empty record has there.
#![tactic(auto)]

ghost use Rattle.std.specs.Prelude.{◌≡◌, length, replicate};
ghost use Rattle.rules.specs.Records.{blocks_emptied, heads_emptied, blocks_of, heads_of};

use cells::Cell;
use rules::{BlockSlot, Sequence};

// Every cell becomes the value. By std's `fill`, which writes the last one by itself, fresh tables took some hundredths longer.
fn fill<C: Cell>(cells: &mut [C], value: C)
    ensures { cells.new ≡ replicate (length cells.old) value }
{
    for cell in cells.iter_mut() {
        *cell = value;
    }
}

// Every byte becomes the value.
pub fn fill_bytes(bytes: &mut [u8], value: u8)
    ensures { bytes.new ≡ replicate (length bytes.old) value }
{
    fill(bytes, value);
}

// Every head becomes the empty record, whatever the lengths of the buffers.
pub fn empty_heads(
    tips: &mut [u32],
    tails: &mut [u32],
    missing: &mut [u8],
    requested: &mut [u64],
    arrivals: &mut [u64],
    connected: &mut [u8],
)
    ensures { heads_of tips.new tails.new missing.new requested.new arrivals.new connected.new
        ≡ heads_emptied (heads_of tips.old tails.old missing.old requested.old arrivals.old connected.old) }
{
    fill(tips, BlockSlot::NONE_REF.0);
    fill(tails, BlockSlot::NONE_REF.0);
    fill_bytes(missing, 0);
    fill(requested, 0);
    fill(arrivals, 0);
    fill_bytes(connected, 0);
}

// Every block slot becomes the empty record, whatever the lengths of the buffers.
pub fn empty_blocks(
    hashes: &mut [u8],
    parents: &mut [u32],
    sequences: &mut [u32],
    counts: &mut [u8],
    flags: &mut [u8],
)
    ensures { blocks_of hashes.new parents.new sequences.new counts.new flags.new
        ≡ blocks_emptied (blocks_of hashes.old parents.old sequences.old counts.old flags.old) }
{
    fill_bytes(hashes, 0);
    fill(parents, BlockSlot::NONE_REF.0);
    fill(sequences, Sequence::NONE_REF.0);
    fill_bytes(counts, 0);
    fill_bytes(flags, 0);
}
