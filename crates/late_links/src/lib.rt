// Late tails: blocks that waited for the new one are linked to it.
#![tactic(auto)]

ghost use Rattle.std.specs.Prelude.{◌≡◌, suc, eqb};
ghost use Rattle.rules.specs.Hashes.{hash_at};
ghost use Rattle.rules.specs.Records.{tables_of};
ghost use Rattle.rules.specs.Admission.{misses as misses_rule, late, joined as joined_rule, link as link_rule, link_late, link_tails};

use block_changes::resolve_parent_ref;
use block_counts::adjust_head_ref_count;
use blocks::is_occupied;
use cells::{cell_at, first_byte, hash_at, same_hash_at, slots};
use heads::{is_stored, put_head, slot_of_head};
use rules::{BlockSlot, Head, HeadSlot, Sequence};

// Whether the head is stored and misses this hash; the first byte alone rules most heads out.
pub fn misses(
    tips: &[u32],
    missing: &[u8],
    connected: &[u8],
    hash: [u8; 32],
    head: HeadSlot,
) -> bool
    ensures { result ≡ misses_rule tips.now missing.now connected.now hash head.0 }
{
    first_byte(missing, head.0) == hash[0]
        && is_stored(tips, connected, head)
        && same_hash_at(missing, head.0, hash)
}

#[tactic(auto, unfolding(rules::specs::Admission::late))]
fn is_late(
    parents: &[u32],
    sequences: &[u32],
    tips: &[u32],
    tails: &[u32],
    missing: &[u8],
    connected: &[u8],
    block: BlockSlot,
    sequence: Sequence,
    hash: [u8; 32],
    head: HeadSlot,
) -> bool
    ensures { result ≡ late parents.now sequences.now tips.now tails.now
        missing.now connected.now block.0 sequence.0 hash head.0 }
{
    let tail = BlockSlot(cell_at(tails, head.0));
    misses(tips, missing, connected, hash, head)
        && tail != block
        && is_occupied(sequences, tail)
        && BlockSlot(cell_at(parents, tail.0)) == BlockSlot::NONE_REF
        && comes_after(Sequence(cell_at(sequences, tail.0)), sequence)
}

fn comes_after(higher: Sequence, lower: Sequence) -> bool
    ensures { result ≡ eqb higher.0 (suc lower.0) }
{
    higher.0.checked_sub(1) == Some(lower.0)
}

// The new block's own head is emptied if it has one, else it counts one more.
fn join(
    hashes: &[u8],
    parents: &[u32],
    sequences: &[u32],
    counts: &mut [u8],
    flags: &[u8],
    tips: &mut [u32],
    tails: &mut [u32],
    missing: &mut [u8],
    requested: &mut [u64],
    arrivals: &mut [u64],
    connected: &mut [u8],
    block: BlockSlot,
)
    ensures { tables_of hashes.now parents.now sequences.now counts.new flags.now
        tips.new tails.new missing.new requested.new arrivals.new connected.new
        ≡ joined_rule (tables_of hashes.now parents.now sequences.now counts.old flags.now
        tips.old tails.old missing.old requested.old arrivals.old connected.old) block.0 }
{
    match slot_of_head(tips, block) {
        Some(own) => put_head(
            tips,
            tails,
            missing,
            requested,
            arrivals,
            connected,
            own,
            Head::empty(),
        ),
        None => {
            adjust_head_ref_count(sequences, counts, block, 1);
        }
    }
}

fn link(
    hashes: &[u8],
    parents: &mut [u32],
    sequences: &[u32],
    counts: &mut [u8],
    flags: &[u8],
    tips: &mut [u32],
    tails: &mut [u32],
    missing: &mut [u8],
    requested: &mut [u64],
    arrivals: &mut [u64],
    connected: &mut [u8],
    block: BlockSlot,
    head: HeadSlot,
)
    ensures { tables_of hashes.now parents.new sequences.now counts.new flags.now
        tips.new tails.new missing.new requested.new arrivals.new connected.new
        ≡ link_rule (tables_of hashes.now parents.old sequences.now counts.old flags.now
        tips.old tails.old missing.old requested.old arrivals.old connected.old) block.0 head.0 }
{
    let tail = BlockSlot(cell_at(tails, head.0));
    resolve_parent_ref(parents, tail, block);
    join(
        hashes, parents, sequences, counts, flags, tips, tails, missing, requested, arrivals,
        connected, block,
    );
}

fn link_late(
    hashes: &[u8],
    parents: &mut [u32],
    sequences: &[u32],
    counts: &mut [u8],
    flags: &[u8],
    tips: &mut [u32],
    tails: &mut [u32],
    missing: &mut [u8],
    requested: &mut [u64],
    arrivals: &mut [u64],
    connected: &mut [u8],
    block: BlockSlot,
    sequence: Sequence,
    hash: [u8; 32],
    head: HeadSlot,
)
    ensures { tables_of hashes.now parents.new sequences.now counts.new flags.now
        tips.new tails.new missing.new requested.new arrivals.new connected.new
        ≡ link_late block.0 sequence.0 hash head.0
        (tables_of hashes.now parents.old sequences.now counts.old flags.now
        tips.old tails.old missing.old requested.old arrivals.old connected.old) }
{
    if is_late(
        parents, sequences, tips, tails, missing, connected, block, sequence, hash, head,
    ) {
        link(
            hashes, parents, sequences, counts, flags, tips, tails, missing, requested, arrivals,
            connected, block, head,
        );
    }
}

// In head-slot order each tail but the new block, of a stored head that misses its hash, one higher in sequence and without parent, is
// linked; each clears the new block's own head if it has one, else adds 1 to its count.
pub fn link_tails(
    hashes: &[u8],
    parents: &mut [u32],
    sequences: &[u32],
    counts: &mut [u8],
    flags: &[u8],
    tips: &mut [u32],
    tails: &mut [u32],
    missing: &mut [u8],
    requested: &mut [u64],
    arrivals: &mut [u64],
    connected: &mut [u8],
    block: BlockSlot,
    sequence: Sequence,
)
    ensures { tables_of hashes.now parents.new sequences.now counts.new flags.now
        tips.new tails.new missing.new requested.new arrivals.new connected.new
        ≡ link_tails (tables_of hashes.now parents.old sequences.now counts.old flags.now
        tips.old tails.old missing.old requested.old arrivals.old connected.old) block.0
        sequence.0 (hash_at hashes.now block.0) }
{
    let hash = hash_at(hashes, block.0);
    for k in 0..slots(tips) {
        link_late(
            hashes,
            parents,
            sequences,
            counts,
            flags,
            tips,
            tails,
            missing,
            requested,
            arrivals,
            connected,
            block,
            sequence,
            hash,
            HeadSlot(k),
        );
    }
}
