// Parent recovery.
ghost use Rattle.std.specs.Prelude.{◌≡◌};
ghost use Rattle.probe.specs.Numbers.{is_given, time_got, ask_number};
ghost use Rattle.rules.specs.Timer.{due, recovery, mark_requested, deadline};

use crate::numbers::asked;
use cells::put_cell;
use rules::HeadSlot;

// When a head is due: 0 if its request time is 0, else time + retry, held at the 64-bit maximum.
#[unsafe(no_mangle)]
pub extern "C" fn probe_head_eligible_at(requested: u64, retry: u64) -> u64
    ensures { result ≡ due requested retry }
{
    timer::head_eligible_at(requested, retry)
}

// The head slot to ask for times 2^32 plus the sequence that it claims; the highest 64-bit number is none due.
#[unsafe(no_mangle)]
pub extern "C" fn probe_select_parent_recovery(
    hashes: &[u8],
    sequences: &[u32],
    tips: &[u32],
    tails: &[u32],
    requested: &[u64],
    connected: &[u8],
    clock: u64,
    retry: u64,
) -> u64
    ensures { result
        ≡ ask_number
        (recovery hashes.now sequences.now tips.now tails.now requested.now
        connected.now clock retry) }
{
    asked(timer::select_parent_recovery(
        hashes, sequences, tips, tails, requested, connected, clock, retry,
    ))
}

// The head's request time becomes now; an empty head is written too.
#[unsafe(no_mangle)]
pub extern "C" fn probe_mark_requested(requested: &mut [u64], head: u32, clock: u64)
    ensures { requested.new ≡ mark_requested requested.old head clock }
{
    timer::mark_requested(requested, HeadSlot(head), clock);
}

// Whether there is a deadline; it is written to the first place of the list.
#[unsafe(no_mangle)]
pub extern "C" fn probe_earliest_recovery_deadline(
    tips: &[u32],
    requested: &[u64],
    connected: &[u8],
    retry: u64,
    out: &mut [u64],
) -> u32
    ensures { (result ≡ is_given (deadline tips.now requested.now connected.now retry))
        × (out.new
        ≡ time_got (deadline tips.now requested.now connected.now retry) out.old) }
{
    match timer::earliest_recovery_deadline(tips, requested, connected, retry) {
        Some(time) => {
            put_cell(out, 0, time);
            1
        }
        None => 0,
    }
}
