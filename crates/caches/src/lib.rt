// The caches of a head: flag, anchor, missing hash and request time, from the walk of its tip.
#![tactic(auto)]

ghost use Rattle.std.specs.Prelude.{◌≡◌};
ghost use Rattle.rules.specs.Records.{caches_of};
ghost use Rattle.rules.specs.Caches.{connection_kept, tail_kept, recompute};

use anchor::locate_anchor;
use block_flags::with_bit0;
use cells::{cell_at, put_cell, put_hash};
use missing_hashes::keep_missing_hash;
use rules::{BlockSlot, HeadSlot, Located};

fn keep_connection(
    tails: &mut [u32],
    missing: &mut [u8],
    requested: &mut [u64],
    connected: &mut [u8],
    head: HeadSlot,
    at: BlockSlot,
)
    ensures { caches_of tails.new missing.new requested.new connected.new
        ≡ connection_kept (caches_of tails.old missing.old requested.old connected.old) head.0 at.0 }
{
    let bits = with_bit0(cell_at(connected, head.0), true);
    put_cell(tails, head.0, at.0);
    put_hash(missing, head.0, [0u8; 32]);
    put_cell(requested, head.0, 0);
    put_cell(connected, head.0, bits);
}

fn keep_tail(
    tips: &[u32],
    tails: &mut [u32],
    missing: &mut [u8],
    requested: &[u64],
    connected: &mut [u8],
    head: HeadSlot,
    at: BlockSlot,
    arriving: BlockSlot,
    previous: &[u8],
)
    ensures { caches_of tails.new missing.new requested.now connected.new
        ≡ tail_kept tips.now
        (caches_of tails.old missing.old requested.now connected.old) head.0 at.0 arriving.0
        previous.now }
{
    let bits = with_bit0(cell_at(connected, head.0), false);
    put_cell(tails, head.0, at.0);
    put_cell(connected, head.0, bits);
    keep_missing_hash(
        tips, tails, missing, connected, head, at, arriving, previous,
    );
}

// Locates the tip's anchor anew and keeps it. A connection sets the flag and zeroes request time and missing hash. A tail clears the
// flag; the missing hash is the previous one if the tail is the arriving block, else that of the lowest stored head with this tail.
pub fn recompute_caches(
    parents: &[u32],
    sequences: &[u32],
    flags: &[u8],
    tips: &[u32],
    tails: &mut [u32],
    missing: &mut [u8],
    requested: &mut [u64],
    connected: &mut [u8],
    head: HeadSlot,
    arriving: BlockSlot,
    previous: &[u8],
)
    ensures { caches_of tails.new missing.new requested.new connected.new
        ≡ recompute parents.now sequences.now flags.now tips.now
        (caches_of tails.old missing.old requested.old connected.old) head.0 arriving.0 previous.now }
{
    let tip = BlockSlot(cell_at(tips, head.0));
    match locate_anchor(parents, sequences, flags, tip) {
        Located::Connection(at) => keep_connection(tails, missing, requested, connected, head, at),
        Located::Tail(at) => {
            keep_tail(
                tips, tails, missing, requested, connected, head, at, arriving, previous,
            )
        }
    }
}
