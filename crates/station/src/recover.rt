// Timer, and the earliest deadline.
ghost use Rattle.std.specs.Prelude.{◌≡◌, ℕ};
ghost use Rattle.rules.specs.Records.{tables_of};
ghost use Rattle.rules.specs.Calls.{state_of, timer as timer_rule, earliest_deadline};
ghost use Rattle.call_numbers.specs.Numbers.{span_from, Asks, Waits};

use call_numbers::{deadline_number, span_from, timed_number};
use rules::View;
use timer_call::{earliest_deadline, timer};

// The head to ask for, whose request time becomes now; claimed sequence and missing hash go into the two lists. NONE_REF is none due, and
// a refusal stands in the upper half: these write nothing. Where `given` is 0 the span is 60 ticks.
#[unsafe(no_mangle)]
pub extern "C" fn station_timer(
    hashes: &[u8],
    parents: &[u32],
    sequences: &[u32],
    counts: &[u8],
    flags: &[u8],
    tips: &[u32],
    tails: &[u32],
    missing: &[u8],
    requested: &mut [u64],
    arrivals: &[u64],
    connected: &[u8],
    clock: u64,
    given: u32,
    span: u64,
    claimed: &mut [u32],
    wanted: &mut [u8],
) -> u64
    ensures { (active_head : ℕ) → Asks result claimed wanted
        (tables_of hashes.now parents.now sequences.now counts.now flags.now
        tips.now tails.now missing.now requested.new arrivals.now connected.now)
        (timer_rule
        (state_of (tables_of hashes.now parents.now sequences.now counts.now flags.now
        tips.now tails.now missing.now requested.old arrivals.now connected.now) active_head)
        clock (span_from given span)) }
{
    let answer = timer(
        hashes,
        parents,
        sequences,
        counts,
        flags,
        tips,
        tails,
        missing,
        requested,
        arrivals,
        connected,
        clock,
        span_from(given, span),
    );
    timed_number(answer, claimed, wanted)
}

// 1, with the least due time of stored heads in the first place of the list; 0 is never, and a refusal stands in the upper half: these
// write nothing. Where `given` is 0 the span is 60 ticks.
#[unsafe(no_mangle)]
pub extern "C" fn station_earliest_deadline(
    hashes: &[u8],
    parents: &[u32],
    sequences: &[u32],
    counts: &[u8],
    flags: &[u8],
    tips: &[u32],
    tails: &[u32],
    missing: &[u8],
    requested: &[u64],
    arrivals: &[u64],
    connected: &[u8],
    given: u32,
    span: u64,
    time: &mut [u64],
) -> u64
    ensures { (active_head : ℕ) → Waits result time
        (tables_of hashes.now parents.now sequences.now counts.now flags.now
        tips.now tails.now missing.now requested.now arrivals.now connected.now)
        (earliest_deadline
        (state_of (tables_of hashes.now parents.now sequences.now counts.now flags.now
        tips.now tails.now missing.now requested.now arrivals.now connected.now) active_head)
        (span_from given span)) }
{
    let view = View {
        hashes,
        parents,
        sequences,
        counts,
        flags,
        tips,
        tails,
        missing,
        requested,
        arrivals,
        connected,
    };
    deadline_number(earliest_deadline(&view, span_from(given, span)), time)
}
