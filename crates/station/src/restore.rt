// Restart.
ghost use Rattle.std.specs.Prelude.{◌≡◌};
ghost use Rattle.rules.specs.Records.{tables_of};
ghost use Rattle.rules.specs.Calls.{state_of, restart as restart_rule};
ghost use Rattle.call_numbers.specs.Numbers.{Gives};

use call_numbers::call_number;
use restart_call::restart;
use rules::BlockSlot;

// Makes counts and heads anew from the blocks; 0 is done, and a refusal in the upper half changes nothing. `active` is the record's slot.
#[unsafe(no_mangle)]
pub extern "C" fn station_restart(
    hashes: &mut [u8],
    parents: &mut [u32],
    sequences: &mut [u32],
    counts: &mut [u8],
    flags: &mut [u8],
    tips: &mut [u32],
    tails: &mut [u32],
    missing: &mut [u8],
    requested: &mut [u64],
    arrivals: &mut [u64],
    connected: &mut [u8],
    active: u32,
    clock: u64,
) -> u64
    ensures { Gives result
        (tables_of hashes.new parents.new sequences.new counts.new flags.new
        tips.new tails.new missing.new requested.new arrivals.new connected.new)
        (restart_rule
        (state_of (tables_of hashes.old parents.old sequences.old counts.old flags.old
        tips.old tails.old missing.old requested.old arrivals.old connected.old) active)
        clock) }
{
    call_number(restart(
        hashes,
        parents,
        sequences,
        counts,
        flags,
        tips,
        tails,
        missing,
        requested,
        arrivals,
        connected,
        BlockSlot(active),
        clock,
    ))
}
