// What a trial prints at the end: a line for each block and for each head that is there, on a page. What has no room is dropped; 96
// bytes a slot are enough.
#![tactic(auto)]

ghost use Rattle.std.specs.Prelude.{◌≡◌};
ghost use Rattle.trial_lines.specs.Printing.{printed};
ghost use Rattle.trial_listing.specs.Listing.{block_shown, head_shown, blocks_shown, heads_shown, listing_of};

use blocks::{is_occupied, is_on_active_chain};
use cells::{cell_at, slots};
use heads::{is_connected, is_used};
use rules::{BlockSlot, HeadSlot, Sequence};
use trial_lines::lines::{block_line, head_line};
use trial_lines::page::Page;

#[tactic(auto, unfolding(crate::specs::Listing::block_shown), using(trial_lines::proofs::Printing::printing))]
fn show_block(
    parents: &[u32],
    sequences: &[u32],
    counts: &[u8],
    flags: &[u8],
    page: &mut Page<'_>,
    slot: BlockSlot,
)
    ensures { page.new ≡ printed page.old
        (block_shown parents.now sequences.now counts.now flags.now slot.0) }
{
    if is_occupied(sequences, slot) {
        block_line(
            page,
            slot,
            Sequence(cell_at(sequences, slot.0)),
            BlockSlot(cell_at(parents, slot.0)),
            cell_at(counts, slot.0),
            is_on_active_chain(flags, slot),
        );
    }
}

#[tactic(auto, using(crate::proofs::Listed::lines))]
fn show_blocks(parents: &[u32], sequences: &[u32], counts: &[u8], flags: &[u8], page: &mut Page<'_>)
    ensures { page.new ≡ printed page.old (blocks_shown parents.now sequences.now counts.now flags.now) }
{
    for i in 0..slots(sequences) {
        show_block(parents, sequences, counts, flags, page, BlockSlot(i));
    }
}

#[tactic(auto, unfolding(crate::specs::Listing::head_shown), using(trial_lines::proofs::Printing::printing))]
fn show_head(tips: &[u32], tails: &[u32], connected: &[u8], page: &mut Page<'_>, head: HeadSlot)
    ensures { page.new ≡ printed page.old (head_shown tips.now tails.now connected.now head.0) }
{
    if is_used(tips, head) {
        head_line(
            page,
            head,
            BlockSlot(cell_at(tips, head.0)),
            is_connected(connected, head),
            BlockSlot(cell_at(tails, head.0)),
        );
    }
}

#[tactic(auto, using(crate::proofs::Listed::lines))]
fn show_heads(tips: &[u32], tails: &[u32], connected: &[u8], page: &mut Page<'_>)
    ensures { page.new ≡ printed page.old (heads_shown tips.now tails.now connected.now) }
{
    for k in 0..slots(tips) {
        show_head(tips, tails, connected, page, HeadSlot(k));
    }
}

// A `B` line for each occupied slot, then an `H` line for each head in use, both in slot order.
#[tactic(auto, unfolding(crate::specs::Listing::listing_of), using(trial_lines::proofs::Printing::printing))]
pub fn listing(
    parents: &[u32],
    sequences: &[u32],
    counts: &[u8],
    flags: &[u8],
    tips: &[u32],
    tails: &[u32],
    connected: &[u8],
    page: &mut Page<'_>,
)
    ensures { page.new ≡ printed page.old
        (listing_of parents.now sequences.now counts.now flags.now tips.now
        tails.now connected.now) }
{
    show_blocks(parents, sequences, counts, flags, page);
    show_heads(tips, tails, connected, page);
}
