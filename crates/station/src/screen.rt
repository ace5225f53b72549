// The head screen, whose records are filled into a list that is lent.
ghost use Rattle.std.specs.Prelude.{◌≡◌, ◌≤◌, ℕ, length};
ghost use Rattle.std.proofs.lemmas.List.Edits.{sets};
ghost use Rattle.rules.specs.Records.{tables_of};
ghost use Rattle.rules.specs.Calls.{state_of, max_heads, screen as screen_rule};
ghost use Rattle.call_numbers.specs.Numbers.{Shows};
ghost use Rattle.screen_call.specs.Keys.{rows_in};

use call_numbers::call_number;
use rules::{HeadRow, View};
use screen_call::{row_at, screen};

// The records of so many keys go into the first places of the list.
#[tactic(auto, using(crate::proofs::Filled::fill_next), unfolding(screen_call::specs::Keys::rows_in))]
fn fill_rows(
    sequences: &[u32],
    tips: &[u32],
    tails: &[u32],
    connected: &[u8],
    keys: &[u64; 64],
    many: u32,
    rows: &mut [HeadRow],
)
    requires few { many ≤ max_heads }
    requires fits { many ≤ length rows.old }
    ensures { rows.new
        ≡ sets rows.old 0
        (rows_in sequences.now tips.now tails.now connected.now keys.now many) }
{
    for i in 0..many as usize {
        rows[i] = row_at(sequences, tips, tails, connected, keys[i]);
    }
}

// The number of records of the heads in use, which are written to the first places of the list in their order; the others stay. A refusal
// stands in the upper half and writes nothing.
#[unsafe(no_mangle)]
pub extern "C" fn station_screen(
    hashes: &[u8],
    parents: &[u32],
    sequences: &[u32],
    counts: &[u8],
    flags: &[u8],
    tips: &[u32],
    tails: &[u32],
    missing: &[u8],
    requested: &[u64],
    arrivals: &[u64],
    connected: &[u8],
    rows: &mut [HeadRow],
) -> u64
    ensures { (active_head : ℕ) → Shows result rows
        (tables_of hashes.now parents.now sequences.now counts.now flags.now
        tips.now tails.now missing.now requested.now arrivals.now connected.now)
        (screen_rule
        (state_of (tables_of hashes.now parents.now sequences.now counts.now flags.now
        tips.now tails.now missing.now requested.now arrivals.now connected.now) active_head)
        (length rows.old)) }
{
    let view = View {
        hashes,
        parents,
        sequences,
        counts,
        flags,
        tips,
        tails,
        missing,
        requested,
        arrivals,
        connected,
    };
    let mut keys = [0u64; 64];
    let screened = screen(&view, rows.len(), &mut keys);
    let many = screened.unwrap_or(0);
    fill_rows(sequences, tips, tails, connected, &keys, many, rows);
    call_number(screened)
}
