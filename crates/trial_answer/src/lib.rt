// A line's call on the tables that it is given, and the line that it prints, on a page.
#![tactic(auto)]

ghost use Rattle.rules.specs.Records.{tables_of};
ghost use Rattle.rules.specs.Calls.{state_of};
ghost use Rattle.trial_calls.specs.Calling.{Tells};

use rules::BlockSlot;
use trial_calls::{
    Told, tell_admit, tell_fresh, tell_promote, tell_remove, tell_restart, tell_screen, tell_timer,
    tell_under, tell_unread,
};
use trial_lines::Line;
use trial_lines::page::Page;

// Does the line's call and prints its answer; an unread line calls nothing and prints `?`.
pub fn answer(
    hashes: &mut [u8],
    parents: &mut [u32],
    sequences: &mut [u32],
    counts: &mut [u8],
    flags: &mut [u8],
    tips: &mut [u32],
    tails: &mut [u32],
    missing: &mut [u8],
    requested: &mut [u64],
    arrivals: &mut [u64],
    connected: &mut [u8],
    active: BlockSlot,
    line: Option<Line>,
    page: &mut Page<'_>,
) -> Told
    ensures { Tells
        (state_of (tables_of hashes.old parents.old sequences.old counts.old flags.old
        tips.old tails.old missing.old requested.old arrivals.old connected.old) active.0) line
        page.old
        (state_of (tables_of hashes.new parents.new sequences.new counts.new flags.new
        tips.new tails.new missing.new requested.new arrivals.new connected.new) result.active.0)
        result.renewed page.new }
{
    match line {
        Some(Line::Fresh(_, _)) => tell_fresh(
            hashes, parents, sequences, counts, flags, tips, tails, missing, requested, arrivals,
            connected, active, page,
        ),
        Some(Line::Admit(sequence, hash, previous, arrival)) => tell_admit(
            hashes, parents, sequences, counts, flags, tips, tails, missing, requested, arrivals,
            connected, active, sequence, hash, previous, arrival, page,
        ),
        Some(Line::Promote(slot)) => tell_promote(
            hashes, parents, sequences, counts, flags, tips, tails, missing, requested, arrivals,
            connected, active, slot, page,
        ),
        Some(Line::Remove(slot)) => tell_remove(
            hashes, parents, sequences, counts, flags, tips, tails, missing, requested, arrivals,
            connected, active, slot, page,
        ),
        Some(Line::Under(slot)) => tell_under(
            hashes, parents, sequences, counts, flags, tips, tails, missing, requested, arrivals,
            connected, active, slot, page,
        ),
        Some(Line::Screen) => tell_screen(
            hashes, parents, sequences, counts, flags, tips, tails, missing, requested, arrivals,
            connected, active, page,
        ),
        Some(Line::Timer(clock, retry)) => tell_timer(
            hashes, parents, sequences, counts, flags, tips, tails, missing, requested, arrivals,
            connected, active, clock, retry, page,
        ),
        Some(Line::Restart(clock)) => tell_restart(
            hashes, parents, sequences, counts, flags, tips, tails, missing, requested, arrivals,
            connected, active, clock, page,
        ),
        None => tell_unread(active, page),
    }
}
