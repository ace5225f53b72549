// Where the parent walk of a tip ends.
#![tactic(auto)]

ghost use Rattle.std.specs.Prelude.{◌≡◌};
ghost use Rattle.rules.specs.Anchor.{locate_anchor};
ghost use Rattle.rules.specs.Answers.{anchor_located};

use blocks::{is_occupied, is_on_active_chain};
use cells::{cell_at, slots};
use rules::{BlockSlot, Located, Sequence};

fn locate_by_total_reads(
    parents: &[u32],
    sequences: &[u32],
    flags: &[u8],
    start: BlockSlot,
) -> Located
    ensures { anchor_located result ≡ locate_anchor parents.now sequences.now flags.now start.0 }
{
    let mut current = start;
    let mut last = start;
    for _ in 0..slots(sequences) {
        if !is_occupied(sequences, current) {
            return Located::Tail(last);
        }
        if is_on_active_chain(flags, current) {
            return Located::Connection(current);
        }
        let parent = BlockSlot(cell_at(parents, current.0));
        if parent == BlockSlot::NONE_REF {
            return Located::Tail(current);
        }
        last = current;
        current = parent;
    }
    Located::Tail(last)
}

// Where no field is shorter than the sequences, one test of the slot serves for all; NONE_REF is past the end like any other.
pub fn locate_anchor(parents: &[u32], sequences: &[u32], flags: &[u8], start: BlockSlot) -> Located
    ensures { anchor_located result ≡ locate_anchor parents.now sequences.now flags.now start.0 }
{
    let n = slots(sequences);
    let len = n as usize;
    if len == sequences.len() && len <= parents.len() && len <= flags.len() {
        let mut current = start;
        let mut last = start;
        for _ in 0..n {
            let k = current.0 as usize;
            if len <= k || sequences[k] == Sequence::NONE_REF.0 {
                return Located::Tail(last);
            }
            if flags[k] % 2 == 1 {
                return Located::Connection(current);
            }
            last = current;
            current = BlockSlot(parents[k]);
        }
        return Located::Tail(last);
    }
    locate_by_total_reads(parents, sequences, flags, start)
}
