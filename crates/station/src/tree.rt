// Admit, remove, and how much hangs under a block.
ghost use Rattle.std.specs.Prelude.{◌≡◌, ℕ};
ghost use Rattle.rules.specs.Records.{tables_of};
ghost use Rattle.rules.specs.Calls.{state_of, admit as admit_rule, remove as remove_rule, under as under_rule};
ghost use Rattle.call_numbers.specs.Numbers.{Gives, Hangs};

use admit_call::admit;
use call_numbers::{call_number, hanging_number};
use remove_call::remove;
use rules::{BlockSlot, Sequence, View};
use under_call::under;

// Inserts the block and answers with its slot; a refusal in the upper half changes nothing. `active` is the record's slot.
#[unsafe(no_mangle)]
pub extern "C" fn station_admit(
    hashes: &mut [u8],
    parents: &mut [u32],
    sequences: &mut [u32],
    counts: &mut [u8],
    flags: &mut [u8],
    tips: &mut [u32],
    tails: &mut [u32],
    missing: &mut [u8],
    requested: &mut [u64],
    arrivals: &mut [u64],
    connected: &mut [u8],
    active: u32,
    sequence: u32,
    hash: &[u8],
    previous: &[u8],
    arrival: u64,
) -> u64
    ensures { Gives result
        (tables_of hashes.new parents.new sequences.new counts.new flags.new
        tips.new tails.new missing.new requested.new arrivals.new connected.new)
        (admit_rule
        (state_of (tables_of hashes.old parents.old sequences.old counts.old flags.old
        tips.old tails.old missing.old requested.old arrivals.old connected.old) active)
        sequence hash.now previous.now arrival) }
{
    call_number(admit(
        hashes,
        parents,
        sequences,
        counts,
        flags,
        tips,
        tails,
        missing,
        requested,
        arrivals,
        connected,
        BlockSlot(active),
        Sequence(sequence),
        hash,
        previous,
        arrival,
    ))
}

// Frees the root's subtree and answers with the number of blocks freed; a refusal in the upper half changes nothing.
#[unsafe(no_mangle)]
pub extern "C" fn station_remove(
    hashes: &mut [u8],
    parents: &mut [u32],
    sequences: &mut [u32],
    counts: &mut [u8],
    flags: &mut [u8],
    tips: &mut [u32],
    tails: &mut [u32],
    missing: &mut [u8],
    requested: &mut [u64],
    arrivals: &mut [u64],
    connected: &mut [u8],
    root: u32,
) -> u64
    ensures { (active_head : ℕ) → Gives result
        (tables_of hashes.new parents.new sequences.new counts.new flags.new
        tips.new tails.new missing.new requested.new arrivals.new connected.new)
        (remove_rule
        (state_of (tables_of hashes.old parents.old sequences.old counts.old flags.old
        tips.old tails.old missing.old requested.old arrivals.old connected.old) active_head)
        root) }
{
    call_number(remove(
        hashes,
        parents,
        sequences,
        counts,
        flags,
        tips,
        tails,
        missing,
        requested,
        arrivals,
        connected,
        BlockSlot(root),
    ))
}

// How many blocks hang under the slot, its own among them, with the highest sequence among them in the first place of the list; a refusal
// stands in the upper half and writes nothing.
#[unsafe(no_mangle)]
pub extern "C" fn station_under(
    hashes: &[u8],
    parents: &[u32],
    sequences: &[u32],
    counts: &[u8],
    flags: &[u8],
    tips: &[u32],
    tails: &[u32],
    missing: &[u8],
    requested: &[u64],
    arrivals: &[u64],
    connected: &[u8],
    slot: u32,
    highest: &mut [u32],
) -> u64
    ensures { (active_head : ℕ) → Hangs result highest
        (tables_of hashes.now parents.now sequences.now counts.now flags.now
        tips.now tails.now missing.now requested.now arrivals.now connected.now)
        (under_rule
        (state_of (tables_of hashes.now parents.now sequences.now counts.now flags.now
        tips.now tails.now missing.now requested.now arrivals.now connected.now) active_head)
        slot) }
{
    let view = View {
        hashes,
        parents,
        sequences,
        counts,
        flags,
        tips,
        tails,
        missing,
        requested,
        arrivals,
        connected,
    };
    hanging_number(under(&view, BlockSlot(slot)), highest)
}
