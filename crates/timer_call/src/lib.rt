// Timer, and the earliest deadline.
#![tactic(auto)]

ghost use Rattle.std.specs.Prelude.{ℕ};
ghost use Rattle.rules.specs.Records.{tables_of, viewed};
ghost use Rattle.rules.specs.Answers.{timer_said, deadline_said};
ghost use Rattle.rules.specs.Calls.{state_of, timer as timer_rule, earliest_deadline, Does};

use cells::hash_at;
use rules::{Recovery, Refusal, Request, View};
use shape::is_shaped;
use timer::{earliest_recovery_deadline, mark_requested, select_parent_recovery};

pub const DEFAULT_RETRY: u64 = 60;

// A request for the chosen head, whose request time becomes now; none due and a refusal change nothing. An unset span is 60 ticks.
#[tactic(auto, unfolding(rules::specs::Calls::timer, rules::specs::Calls::asked))]
pub fn timer(
    hashes: &[u8],
    parents: &[u32],
    sequences: &[u32],
    counts: &[u8],
    flags: &[u8],
    tips: &[u32],
    tails: &[u32],
    missing: &[u8],
    requested: &mut [u64],
    arrivals: &[u64],
    connected: &[u8],
    clock: u64,
    span: Option<u64>,
) -> Result<Option<Request>, Refusal>
    ensures { (active_head : ℕ) → Does (timer_said result)
        (tables_of hashes.now parents.now sequences.now counts.now flags.now
        tips.now tails.now missing.now requested.new arrivals.now connected.now)
        (timer_rule
        (state_of (tables_of hashes.now parents.now sequences.now counts.now flags.now
        tips.now tails.now missing.now requested.old arrivals.now connected.now) active_head)
        clock span) }
{
    let view = View {
        hashes,
        parents,
        sequences,
        counts,
        flags,
        tips,
        tails,
        missing,
        requested,
        arrivals,
        connected,
    };
    if !is_shaped(&view) {
        return Err(Refusal::Shape);
    }
    let chosen = select_parent_recovery(
        hashes,
        sequences,
        tips,
        tails,
        requested,
        connected,
        clock,
        span.unwrap_or(DEFAULT_RETRY),
    );
    let Some(Recovery { head, claimed }) = chosen else {
        return Ok(None);
    };
    let missing = hash_at(missing, head.0);
    mark_requested(requested, head, clock);
    Ok(Some(Request {
        head,
        claimed,
        missing,
    }))
}

// The least due time of stored heads, or never where none is stored; an unset span is 60 ticks. Nothing is written.
#[tactic(auto, unfolding(rules::specs::Calls::earliest_deadline))]
pub fn earliest_deadline(view: &View, span: Option<u64>) -> Result<Option<u64>, Refusal>
    ensures { (active_head : ℕ) → Does (deadline_said result) (viewed view.now)
        (earliest_deadline (state_of (viewed view.now) active_head) span) }
{
    if !is_shaped(view) {
        return Err(Refusal::Shape);
    }
    let retry = span.unwrap_or(DEFAULT_RETRY);
    Ok(earliest_recovery_deadline(view.tips, view.requested, view.connected, retry))
}
