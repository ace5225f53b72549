// Restart.
#![tactic(auto)]

ghost use Rattle.std.specs.Prelude.{◌≡◌};
ghost use Rattle.rules.specs.Records.{tables_of};
ghost use Rattle.rules.specs.Answers.{outcome_said};
ghost use Rattle.rules.specs.Calls.{state_of, restart as restart_rule, Does};

use empties::empty_heads;
use rebuild::rebuild_from_blocks;
use recount::recompute_head_ref_counts;
use rules::{BlockSlot, Refusal, View};
use shape::is_shaped;

// Empties the heads, sets the counts, then rebuilds the heads with `clock` as their arrival time; a refusal changes nothing.
pub fn restart(
    hashes: &mut [u8],
    parents: &mut [u32],
    sequences: &mut [u32],
    counts: &mut [u8],
    flags: &mut [u8],
    tips: &mut [u32],
    tails: &mut [u32],
    missing: &mut [u8],
    requested: &mut [u64],
    arrivals: &mut [u64],
    connected: &mut [u8],
    active: BlockSlot,
    clock: u64,
) -> Result<(), Refusal>
    ensures { Does (outcome_said result)
        (tables_of hashes.new parents.new sequences.new counts.new flags.new
        tips.new tails.new missing.new requested.new arrivals.new connected.new)
        (restart_rule
        (state_of (tables_of hashes.old parents.old sequences.old counts.old flags.old
        tips.old tails.old missing.old requested.old arrivals.old connected.old) active.0)
        clock) }
{
    let view = View {
        hashes,
        parents,
        sequences,
        counts,
        flags,
        tips,
        tails,
        missing,
        requested,
        arrivals,
        connected,
    };
    if !is_shaped(&view) {
        return Err(Refusal::Shape);
    }
    empty_heads(tips, tails, missing, requested, arrivals, connected);
    recompute_head_ref_counts(parents, sequences, counts);
    rebuild_from_blocks(
        hashes, parents, sequences, counts, flags, tips, tails, missing, requested, arrivals,
        connected, clock, active,
    );
    Ok(())
}
