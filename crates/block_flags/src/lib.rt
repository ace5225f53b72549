// The flags of a block: the active chain and the status.
#![tactic(auto)]

ghost use Rattle.std.specs.Prelude.{◌≡◌};
ghost use Rattle.rules.specs.Records.{occupied, status_number, with_status, with_bit0};
ghost use Rattle.rules.specs.BlockTable.{set_on_active_chain, set_status};

use blocks::set_occupied;
use cells::cell_at;
use rules::{BlockSlot, BlockStatus};

// The byte with bit 0 set or cleared, its other bits as they were.
pub fn with_bit0(byte: u8, value: bool) -> u8
    ensures { result ≡ with_bit0 byte value }
{
    byte / 2 * 2 + u8::from(value)
}

// Sets or clears bit 0 of the slot's flags and tells whether the slot is occupied; an empty slot keeps its flags.
#[tactic(auto, unfolding(rules::specs::BlockTable::set_on_active_chain))]
pub fn set_on_active_chain(
    sequences: &[u32],
    flags: &mut [u8],
    slot: BlockSlot,
    value: bool,
) -> bool
    ensures { (result ≡ occupied sequences.now slot.0)
        × (flags.new ≡ set_on_active_chain sequences.now flags.old slot.0 value) }
{
    let bits = with_bit0(cell_at(flags, slot.0), value);
    set_occupied(sequences, flags, slot, bits)
}

#[tactic(auto, unfolding(rules::specs::Records::with_status))]
fn with_status(bits: u8, status: BlockStatus) -> u8
    ensures { result ≡ with_status bits (status_number status) }
{
    bits / 8 * 8 + bits % 2 + status as u8 * 2
}

// Sets bits 1 and 2 of the slot's flags and tells whether the slot is occupied; an empty slot keeps its flags.
#[tactic(auto, unfolding(rules::specs::BlockTable::set_status))]
pub fn set_status(sequences: &[u32], flags: &mut [u8], slot: BlockSlot, status: BlockStatus) -> bool
    ensures { (result ≡ occupied sequences.now slot.0)
        × (flags.new ≡ set_status sequences.now flags.old slot.0 (status_number status)) }
{
    let bits = with_status(cell_at(flags, slot.0), status);
    set_occupied(sequences, flags, slot, bits)
}
