// The calls of a trial's lines, a function for each letter, on the tables that they are given. What each prints goes on a page.
#![tactic(auto)]

mod screen;

ghost use Rattle.std.specs.Prelude.{ℕ, Some, None};
ghost use Rattle.rules.specs.Records.{Tables, tables_of};
ghost use Rattle.rules.specs.Calls.{state_of};
ghost use Rattle.trial_lines.specs.declared.Line.TheVariants.{Fresh, Admit, Promote, Remove, Under, Screen, Timer, Restart};
ghost use Rattle.trial_calls.specs.Calling.{Tells};

use admit_call::admit;
use fresh_call::fresh;
use promote_call::promote;
use remove_call::remove;
use restart_call::restart;
use rules::{BlockSlot, Sequence, View};
use screen::screen_lines;
use screen_call::screen;
use timer_call::timer;
use trial_lines::answers::{
    admit_line, fresh_line, promote_line, remove_line, restart_line, timer_line, under_line,
};
use trial_lines::lines::letter_line;
use trial_lines::page::Page;
use under_call::under;

// What the record holds after a line, and whether the line brings new tables.
#[derive(Clone, Copy)]
pub struct Told {
    pub active: BlockSlot,
    pub renewed: bool,
}

// The tables are made fresh as they come, whatever sizes the line names.
pub fn tell_fresh(
    hashes: &mut [u8],
    parents: &mut [u32],
    sequences: &mut [u32],
    counts: &mut [u8],
    flags: &mut [u8],
    tips: &mut [u32],
    tails: &mut [u32],
    missing: &mut [u8],
    requested: &mut [u64],
    arrivals: &mut [u64],
    connected: &mut [u8],
    active: BlockSlot,
    page: &mut Page<'_>,
) -> Told
    ensures { (n m : ℕ)
        → Tells (state_of (tables_of hashes.old parents.old sequences.old counts.old flags.old
        tips.old tails.old missing.old requested.old arrivals.old connected.old) active.0)
        (Some (Fresh n m)) page.old
        (state_of (tables_of hashes.new parents.new sequences.new counts.new flags.new
        tips.new tails.new missing.new requested.new arrivals.new connected.new) result.active.0)
        result.renewed page.new }
{
    let answer = fresh(
        hashes, parents, sequences, counts, flags, tips, tails, missing, requested, arrivals,
        connected, active,
    );
    fresh_line(page, answer);
    Told {
        active: answer.unwrap_or(active),
        renewed: answer.is_ok(),
    }
}

// Admits a block, each of its two hashes a byte 32 times, and prints the new slot or the refusal.
pub fn tell_admit(
    hashes: &mut [u8],
    parents: &mut [u32],
    sequences: &mut [u32],
    counts: &mut [u8],
    flags: &mut [u8],
    tips: &mut [u32],
    tails: &mut [u32],
    missing: &mut [u8],
    requested: &mut [u64],
    arrivals: &mut [u64],
    connected: &mut [u8],
    active: BlockSlot,
    sequence: Sequence,
    hash: u8,
    previous: u8,
    arrival: u64,
    page: &mut Page<'_>,
) -> Told
    ensures { Tells
        (state_of (tables_of hashes.old parents.old sequences.old counts.old flags.old
        tips.old tails.old missing.old requested.old arrivals.old connected.old) active.0)
        (Some (Admit sequence hash previous arrival)) page.old
        (state_of (tables_of hashes.new parents.new sequences.new counts.new flags.new
        tips.new tails.new missing.new requested.new arrivals.new connected.new) result.active.0)
        result.renewed page.new }
{
    let own = [hash; 32];
    let before = [previous; 32];
    let answer = admit(
        hashes, parents, sequences, counts, flags, tips, tails, missing, requested, arrivals,
        connected, active, sequence, &own, &before, arrival,
    );
    admit_line(page, answer);
    Told {
        active,
        renewed: false,
    }
}

// Promotes the block and prints its slot or the refusal; a refusal leaves the record as it was.
pub fn tell_promote(
    hashes: &[u8],
    parents: &[u32],
    sequences: &[u32],
    counts: &[u8],
    flags: &mut [u8],
    tips: &[u32],
    tails: &mut [u32],
    missing: &mut [u8],
    requested: &mut [u64],
    arrivals: &[u64],
    connected: &mut [u8],
    active: BlockSlot,
    slot: BlockSlot,
    page: &mut Page<'_>,
) -> Told
    ensures { Tells
        (state_of (tables_of hashes.now parents.now sequences.now counts.now flags.old
        tips.now tails.old missing.old requested.old arrivals.now connected.old) active.0)
        (Some (Promote slot)) page.old
        (state_of (tables_of hashes.now parents.now sequences.now counts.now flags.new
        tips.now tails.new missing.new requested.new arrivals.now connected.new) result.active.0)
        result.renewed page.new }
{
    let answer = promote(
        hashes, parents, sequences, counts, flags, tips, tails, missing, requested, arrivals,
        connected, active, slot,
    );
    promote_line(page, answer, slot);
    Told {
        active: answer.unwrap_or(active),
        renewed: false,
    }
}

// Removes the slot's subtree and prints the number of blocks freed or the refusal.
pub fn tell_remove(
    hashes: &mut [u8],
    parents: &mut [u32],
    sequences: &mut [u32],
    counts: &mut [u8],
    flags: &mut [u8],
    tips: &mut [u32],
    tails: &mut [u32],
    missing: &mut [u8],
    requested: &mut [u64],
    arrivals: &mut [u64],
    connected: &mut [u8],
    active: BlockSlot,
    slot: BlockSlot,
    page: &mut Page<'_>,
) -> Told
    ensures { Tells
        (state_of (tables_of hashes.old parents.old sequences.old counts.old flags.old
        tips.old tails.old missing.old requested.old arrivals.old connected.old) active.0)
        (Some (Remove slot)) page.old
        (state_of (tables_of hashes.new parents.new sequences.new counts.new flags.new
        tips.new tails.new missing.new requested.new arrivals.new connected.new) result.active.0)
        result.renewed page.new }
{
    let answer = remove(
        hashes, parents, sequences, counts, flags, tips, tails, missing, requested, arrivals,
        connected, slot,
    );
    remove_line(page, answer);
    Told {
        active,
        renewed: false,
    }
}

// Asks how much hangs under the slot and prints the number of blocks and the highest sequence, or the refusal.
pub fn tell_under(
    hashes: &[u8],
    parents: &[u32],
    sequences: &[u32],
    counts: &[u8],
    flags: &[u8],
    tips: &[u32],
    tails: &[u32],
    missing: &[u8],
    requested: &[u64],
    arrivals: &[u64],
    connected: &[u8],
    active: BlockSlot,
    slot: BlockSlot,
    page: &mut Page<'_>,
) -> Told
    ensures { Tells
        (state_of (tables_of hashes.now parents.now sequences.now counts.now flags.now
        tips.now tails.now missing.now requested.now arrivals.now connected.now) active.0)
        (Some (Under slot)) page.old
        (state_of (tables_of hashes.now parents.now sequences.now counts.now flags.now
        tips.now tails.now missing.now requested.now arrivals.now connected.now) result.active.0)
        result.renewed page.new }
{
    let view = View {
        hashes,
        parents,
        sequences,
        counts,
        flags,
        tips,
        tails,
        missing,
        requested,
        arrivals,
        connected,
    };
    let answer = under(&view, slot);
    under_line(page, answer);
    Told {
        active,
        renewed: false,
    }
}

// Asks for the screen, with room for every head, and prints a line for each of its records, or the refusal.
pub fn tell_screen(
    hashes: &[u8],
    parents: &[u32],
    sequences: &[u32],
    counts: &[u8],
    flags: &[u8],
    tips: &[u32],
    tails: &[u32],
    missing: &[u8],
    requested: &[u64],
    arrivals: &[u64],
    connected: &[u8],
    active: BlockSlot,
    page: &mut Page<'_>,
) -> Told
    ensures { Tells
        (state_of (tables_of hashes.now parents.now sequences.now counts.now flags.now
        tips.now tails.now missing.now requested.now arrivals.now connected.now) active.0)
        (Some Screen) page.old
        (state_of (tables_of hashes.now parents.now sequences.now counts.now flags.now
        tips.now tails.now missing.now requested.now arrivals.now connected.now) result.active.0)
        result.renewed page.new }
{
    let view = View {
        hashes,
        parents,
        sequences,
        counts,
        flags,
        tips,
        tails,
        missing,
        requested,
        arrivals,
        connected,
    };
    let mut keys = [0u64; 64];
    let answer = screen(&view, tips.len(), &mut keys);
    screen_lines(sequences, tips, tails, connected, keys, answer, page);
    Told {
        active,
        renewed: false,
    }
}

// Calls timer with the line's retry span and prints the request, that none is due, or the refusal.
pub fn tell_timer(
    hashes: &[u8],
    parents: &[u32],
    sequences: &[u32],
    counts: &[u8],
    flags: &[u8],
    tips: &[u32],
    tails: &[u32],
    missing: &[u8],
    requested: &mut [u64],
    arrivals: &[u64],
    connected: &[u8],
    active: BlockSlot,
    clock: u64,
    retry: u64,
    page: &mut Page<'_>,
) -> Told
    ensures { Tells
        (state_of (tables_of hashes.now parents.now sequences.now counts.now flags.now
        tips.now tails.now missing.now requested.old arrivals.now connected.now) active.0)
        (Some (Timer clock retry)) page.old
        (state_of (tables_of hashes.now parents.now sequences.now counts.now flags.now
        tips.now tails.now missing.now requested.new arrivals.now connected.now) result.active.0)
        result.renewed page.new }
{
    let answer = timer(
        hashes,
        parents,
        sequences,
        counts,
        flags,
        tips,
        tails,
        missing,
        requested,
        arrivals,
        connected,
        clock,
        Some(retry),
    );
    timer_line(page, answer);
    Told {
        active,
        renewed: false,
    }
}

// Restarts with the line's time as the arrival time and prints `R` alone or the refusal.
pub fn tell_restart(
    hashes: &mut [u8],
    parents: &mut [u32],
    sequences: &mut [u32],
    counts: &mut [u8],
    flags: &mut [u8],
    tips: &mut [u32],
    tails: &mut [u32],
    missing: &mut [u8],
    requested: &mut [u64],
    arrivals: &mut [u64],
    connected: &mut [u8],
    active: BlockSlot,
    clock: u64,
    page: &mut Page<'_>,
) -> Told
    ensures { Tells
        (state_of (tables_of hashes.old parents.old sequences.old counts.old flags.old
        tips.old tails.old missing.old requested.old arrivals.old connected.old) active.0)
        (Some (Restart clock)) page.old
        (state_of (tables_of hashes.new parents.new sequences.new counts.new flags.new
        tips.new tails.new missing.new requested.new arrivals.new connected.new) result.active.0)
        result.renewed page.new }
{
    let answer = restart(
        hashes, parents, sequences, counts, flags, tips, tails, missing, requested, arrivals,
        connected, active, clock,
    );
    restart_line(page, answer);
    Told {
        active,
        renewed: false,
    }
}

// An unread line calls nothing and prints `?`.
pub fn tell_unread(active: BlockSlot, page: &mut Page<'_>) -> Told
    ensures { (t : Tables)
        → Tells (state_of t active.0) None page.old (state_of t result.active.0) result.renewed page.new }
{
    letter_line(page, b'?');
    Told {
        active,
        renewed: false,
    }
}
