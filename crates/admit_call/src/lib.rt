// Admit.
#![tactic(auto)]

ghost use Rattle.std.specs.Prelude.{◌≡◌};
ghost use Rattle.rules.specs.Records.{tables_of};
ghost use Rattle.rules.specs.Answers.{admitted_said};
ghost use Rattle.rules.specs.Calls.{state_of, admit as admit_rule, Does};

use admit_reply::reply;
use admit_step::admit_at;
use cells::hash_at;
use rules::{BlockSlot, Refusal, Sequence, View};

// Inserts the block, tells the heads and returns the new slot; a refusal changes nothing.
pub fn admit(
    hashes: &mut [u8],
    parents: &mut [u32],
    sequences: &mut [u32],
    counts: &mut [u8],
    flags: &mut [u8],
    tips: &mut [u32],
    tails: &mut [u32],
    missing: &mut [u8],
    requested: &mut [u64],
    arrivals: &mut [u64],
    connected: &mut [u8],
    active: BlockSlot,
    sequence: Sequence,
    hash: &[u8],
    previous: &[u8],
    arrival: u64,
) -> Result<BlockSlot, Refusal>
    ensures { Does (admitted_said result)
        (tables_of hashes.new parents.new sequences.new counts.new flags.new
        tips.new tails.new missing.new requested.new arrivals.new connected.new)
        (admit_rule
        (state_of (tables_of hashes.old parents.old sequences.old counts.old flags.old
        tips.old tails.old missing.old requested.old arrivals.old connected.old) active.0)
        sequence.0 hash.now previous.now arrival) }
{
    let view = View {
        hashes,
        parents,
        sequences,
        counts,
        flags,
        tips,
        tails,
        missing,
        requested,
        arrivals,
        connected,
    };
    let slot = reply(&view, sequence, hash, previous)?;
    admit_at(
        hashes,
        parents,
        sequences,
        counts,
        flags,
        tips,
        tails,
        missing,
        requested,
        arrivals,
        connected,
        active,
        slot,
        sequence,
        hash_at(hash, 0),
        hash_at(previous, 0),
        arrival,
    );
    Ok(slot)
}
