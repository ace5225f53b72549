// Parent recovery: due times, the choice of a head to ask for, and the deadline. Port of that part of src/chain_heads.rs.
#![tactic(auto)]

ghost use Rattle.std.specs.Prelude.{◌≡◌, ◌&&◌, ◌||◌, eqb, ltb};
ghost use Rattle.rules.specs.Records.{tip_at};
ghost use Rattle.rules.specs.Eviction.{block_before};
ghost use Rattle.rules.specs.Timer.{due, may_ask, chosen as chosen_rule, claimed as claimed_rule, ask_at, recovery, mark_requested, deadline};
ghost use Rattle.rules.specs.Answers.{head_found, ask_chosen};

use blocks::is_occupied;
use cells::{cell_at, put_cell, slots};
use heads::{block_before, is_stored};
use rules::{BlockSlot, HeadSlot, Recovery, Sequence};

// When a head is due: at 0 if its request time is 0, else at time + retry, held at the 64-bit maximum.
#[tactic(auto, unfolding(rules::specs::Timer::due))]
pub fn head_eligible_at(requested: u64, retry: u64) -> u64
    ensures { result ≡ due requested retry }
{
    if requested == 0 {
        0
    } else {
        requested.saturating_add(retry)
    }
}

// ---- the head to ask for

#[tactic(auto, unfolding(rules::specs::Timer::may_ask))]
fn may_ask(
    sequences: &[u32],
    tips: &[u32],
    requested: &[u64],
    connected: &[u8],
    clock: u64,
    retry: u64,
    head: HeadSlot,
) -> bool
    ensures { result
        ≡ may_ask sequences.now tips.now requested.now connected.now clock retry head.0 }
{
    is_stored(tips, connected, head)
        && head_eligible_at(cell_at(requested, head.0), retry) <= clock
        && is_occupied(sequences, BlockSlot(cell_at(tips, head.0)))
}

// Of two heads, each with its request time.
fn asks_before(
    hashes: &[u8],
    sequences: &[u32],
    tips: &[u32],
    asking: (u64, HeadSlot),
    best: (u64, HeadSlot),
) -> bool
    ensures { result
        ≡ (ltb asking.0 best.0 || (eqb asking.0 best.0
        && block_before hashes.now sequences.now (tip_at tips.now asking.1.0) (tip_at tips.now best.1.0))) }
{
    let (time, head) = asking;
    let (least, other) = best;
    if time != least {
        return time < least;
    }
    let tip = BlockSlot(cell_at(tips, head.0));
    let other_tip = BlockSlot(cell_at(tips, other.0));
    block_before(hashes, sequences, tip, other_tip)
}

fn chosen(
    hashes: &[u8],
    sequences: &[u32],
    tips: &[u32],
    requested: &[u64],
    connected: &[u8],
    clock: u64,
    retry: u64,
) -> Option<HeadSlot>
    ensures { head_found result
        ≡ chosen_rule hashes.now sequences.now tips.now requested.now connected.now
        clock retry }
{
    // A fold that tests each head: a filter's own loop would lie inside that of what follows it, and that is slower. A head asked for later
    // than the best so far is left at its time, before anything else of it is read.
    (0..slots(tips))
        .map(HeadSlot)
        .fold(None, |best: Option<(u64, HeadSlot)>, head| {
            let asking = (cell_at(requested, head.0), head);
            match best {
                None if may_ask(sequences, tips, requested, connected, clock, retry, head) => {
                    Some(asking)
                }
                Some(first)
                    if asking.0 <= first.0
                        && may_ask(sequences, tips, requested, connected, clock, retry, head)
                        && asks_before(hashes, sequences, tips, asking, first) => { Some(asking) }
                _ => best,
            }
        })
        .map(|best| best.1)
}

#[tactic(auto, unfolding(rules::specs::Timer::claimed))]
fn claimed(tail: Sequence) -> Sequence
    ensures { result.0 ≡ claimed_rule tail.0 }
{
    Sequence(tail.0.saturating_sub(1))
}

#[tactic(auto, unfolding(rules::specs::Timer::ask_at))]
fn ask_at(sequences: &[u32], tails: &[u32], head: HeadSlot) -> Option<Recovery>
    ensures { ask_chosen result ≡ ask_at sequences.now tails.now head.0 }
{
    let tail = BlockSlot(cell_at(tails, head.0));
    if !is_occupied(sequences, tail) {
        return None;
    }
    let claimed = claimed(Sequence(cell_at(sequences, tail.0)));
    Some(Recovery { head, claimed })
}

// Of the stored heads due by now that of least request time, then tip sequence, tip hash, head slot; one with an empty tip is passed
// over. It claims its tail's sequence minus 1, not below 0; if its tail is empty, none is due.
#[tactic(auto, unfolding(rules::specs::Timer::recovery))]
pub fn select_parent_recovery(
    hashes: &[u8],
    sequences: &[u32],
    tips: &[u32],
    tails: &[u32],
    requested: &[u64],
    connected: &[u8],
    clock: u64,
    retry: u64,
) -> Option<Recovery>
    ensures { ask_chosen result
        ≡ recovery hashes.now sequences.now tips.now tails.now requested.now
        connected.now clock retry }
{
    let head = chosen(hashes, sequences, tips, requested, connected, clock, retry)?;
    ask_at(sequences, tails, head)
}

// The head's request time becomes now; an empty head is written too, and out of range nothing changes.
#[tactic(auto, unfolding(rules::specs::Timer::mark_requested))]
pub fn mark_requested(requested: &mut [u64], head: HeadSlot, clock: u64)
    ensures { requested.new ≡ mark_requested requested.old head.0 clock }
{
    put_cell(requested, head.0, clock);
}

// ---- the deadline

// The least due time of stored heads, or never where none is stored.
pub fn earliest_recovery_deadline(
    tips: &[u32],
    requested: &[u64],
    connected: &[u8],
    retry: u64,
) -> Option<u64>
    ensures { result ≡ deadline tips.now requested.now connected.now retry }
{
    // A fold for the same reason as in `chosen`, and a time that is no sooner is left as there.
    (0..slots(tips))
        .map(HeadSlot)
        .fold(None, |least: Option<u64>, head| {
            let time = cell_at(requested, head.0);
            match least {
                Some(first) if first <= time => least,
                _ if is_stored(tips, connected, head) => Some(time),
                _ => least,
            }
        })
        .map(|least| head_eligible_at(least, retry))
}
