// Lines of output, each with its end, on a page.
ghost use Rattle.std.specs.Prelude.{◌≡◌, get_or, if◌then◌else◌};
ghost use Rattle.trial_lines.specs.Writing.{number_line, hanging_line, row_line, request_line, none_due_line, letter_line, block_line, head_line};
ghost use Rattle.trial_lines.specs.Printing.{printed};

use crate::page::Page;
use rules::{BlockSlot, Hanging, HeadKind, HeadRow, HeadSlot, Request, Sequence};

// A letter and a number: an answer or a refusal.
#[tactic(auto, unfolding(crate::specs::Writing::number_line), using(crate::proofs::Printing::printing))]
pub fn number_line(page: &mut Page<'_>, letter: u8, n: u32)
    ensures { page.new ≡ printed page.old (number_line letter n) }
{
    page.put(letter);
    page.field(n);
    page.put(b'\n');
}

// A letter alone: `R`, and `?` for an unread line.
#[tactic(auto, unfolding(crate::specs::Writing::letter_line), using(crate::proofs::Printing::printing))]
pub fn letter_line(page: &mut Page<'_>, letter: u8)
    ensures { page.new ≡ printed page.old (letter_line letter) }
{
    page.put(letter);
    page.put(b'\n');
}

// How much hangs under a block: the number of blocks, and the highest sequence among them.
#[tactic(auto, unfolding(crate::specs::Writing::hanging_line), using(crate::proofs::Printing::printing))]
pub fn hanging_line(page: &mut Page<'_>, hanging: Hanging)
    ensures { page.new ≡ printed page.old (hanging_line hanging.blocks hanging.highest.0) }
{
    page.put(b'U');
    page.field(hanging.blocks);
    page.field(hanging.highest.0);
    page.put(b'\n');
}

// A record of the screen: `V`, tip, sequence, `C` for connected or `S` for stored, and anchor; `-` is none.
#[tactic(auto, unfolding(crate::specs::Writing::row_line), using(crate::proofs::Printing::printing))]
pub fn row_line(page: &mut Page<'_>, row: HeadRow)
    ensures { page.new ≡ printed page.old (row_line row) }
{
    page.put(b'V');
    page.reference(row.tip.0);
    page.reference(row.sequence.0);
    let connected = row.kind == HeadKind::CONNECTED;
    page.text(if connected { b" C" } else { b" S" });
    page.reference(row.anchor.0);
    page.put(b'\n');
}

// A timer's request: the head, the claimed sequence, and the missing hash by its first byte.
#[tactic(auto, unfolding(crate::specs::Writing::request_line), using(crate::proofs::Printing::printing))]
pub fn request_line(page: &mut Page<'_>, request: Request)
    ensures { page.new ≡ printed page.old (request_line request.head.0 request.claimed.0 (get_or request.missing 0 0)) }
{
    page.put(b'T');
    page.field(request.head.0);
    page.field(request.claimed.0);
    page.put(b' ');
    page.hex(request.missing[0]);
    page.put(b'\n');
}

// A timer's answer when none is due: `T -`.
#[tactic(auto, unfolding(crate::specs::Writing::none_due_line))]
pub fn none_due_line(page: &mut Page<'_>)
    ensures { page.new ≡ printed page.old none_due_line }
{
    page.text(b"T -\n");
}

// A block: `B`, slot, sequence, parent or `-`, count, and 1 for active or 0.
#[tactic(auto, unfolding(crate::specs::Writing::block_line), using(crate::proofs::Printing::printing))]
pub fn block_line(
    page: &mut Page<'_>,
    slot: BlockSlot,
    sequence: Sequence,
    parent: BlockSlot,
    count: u8,
    active: bool,
)
    ensures { page.new ≡ printed page.old (block_line slot.0 sequence.0 parent.0 count active) }
{
    page.put(b'B');
    page.field(slot.0);
    page.field(sequence.0);
    page.reference(parent.0);
    page.field(count as u32);
    page.text(if active { b" 1" } else { b" 0" });
    page.put(b'\n');
}

// A head: `H`, slot, tip, `C` for connected or `S` for stored, and anchor; `-` is none.
#[tactic(auto, unfolding(crate::specs::Writing::head_line), using(crate::proofs::Printing::printing))]
pub fn head_line(
    page: &mut Page<'_>,
    slot: HeadSlot,
    tip: BlockSlot,
    connected: bool,
    anchor: BlockSlot,
)
    ensures { page.new ≡ printed page.old (head_line slot.0 tip.0 connected anchor.0) }
{
    page.put(b'H');
    page.field(slot.0);
    page.reference(tip.0);
    page.text(if connected { b" C" } else { b" S" });
    page.reference(anchor.0);
    page.put(b'\n');
}
