// The blocks of a subtree, in one pass: whether a slot's walk reaches the root is remembered, so that no later walk goes on from there.
// Whether a listed block is active.
#![tactic(auto)]

ghost use Rattle.std.specs.Prelude.{◌≡◌, ◌<◌, length};
ghost use Rattle.std.proofs.lemmas.List.Edits.{sets};
ghost use Rattle.rules.specs.Records.{slots_of};
ghost use Rattle.rules.specs.BlockTable.{reaches, in_subtree, mark_subtree};
ghost use Rattle.rules.specs.Answers.{slot_found};
ghost use Rattle.subtree.specs.Active.{any_active};
ghost use Rattle.subtree.specs.Known.{is_known, tells, above as above_rule, told, at_once, Right};
ghost use Rattle.subtree.specs.declared.Mark.TheVariants.{Unknown};

use blocks::{is_occupied, is_on_active_chain};
use cells::{Cell, cell_at, put_cell, slots};
use rules::BlockSlot;

// What is remembered of a slot: nothing yet, that its walk misses the root, or that it reaches it. By an Option<bool>, which is two bytes,
// the marking of a chain took a fifth longer.
#[derive(Clone, Copy, PartialEq, Eq)]
enum Mark {
    Unknown,
    Misses,
    Reaches,
}

impl Mark {
    fn is_known(self) -> bool
        ensures { result ≡ is_known self }
    {
        self != Mark::Unknown
    }

    // What it tells where it is known.
    fn reaches(self) -> bool
        ensures { result ≡ tells self }
    {
        self == Mark::Reaches
    }
}

impl Cell for Mark {
    ghost EMPTY = { Unknown };

    const EMPTY: Mark = Mark::Unknown;
}

// Where the walk goes from here, if it goes on.
#[tactic(auto, unfolding(crate::specs::Known::above))]
fn above(
    parents: &[u32],
    sequences: &[u32],
    root: BlockSlot,
    known: &[Mark],
    slot: BlockSlot,
) -> Option<BlockSlot>
    ensures { slot_found result ≡ above_rule parents.now sequences.now root.0 known.now slot.0 }
{
    if slot == root || cell_at(known, slot.0).is_known() || !is_occupied(sequences, slot) {
        return None;
    }
    let parent = BlockSlot(cell_at(parents, slot.0));
    if parent == BlockSlot::NONE_REF {
        None
    } else {
        Some(parent)
    }
}

// What the slot tells where a walk ends.
#[tactic(auto, unfolding(crate::specs::Known::told))]
fn told_at(root: BlockSlot, known: &[Mark], slot: BlockSlot) -> Mark
    ensures { result ≡ told root.0 known.now slot.0 }
{
    if slot == root {
        return Mark::Reaches;
    }
    let own = cell_at(known, slot.0);
    if own.is_known() { own } else { Mark::Misses }
}

// What is told of an occupied slot without a walk; nothing where neither it nor its parent is known.
#[tactic(auto, unfolding(crate::specs::Known::at_once))]
fn told_at_once(parents: &[u32], root: BlockSlot, known: &[Mark], slot: BlockSlot) -> Mark
    ensures { result ≡ at_once parents.now root.0 known.now slot.0 }
{
    let own = cell_at(known, slot.0);
    if own.is_known() {
        return own;
    }
    if slot == root {
        return Mark::Reaches;
    }
    let parent = BlockSlot(cell_at(parents, slot.0));
    if parent == BlockSlot::NONE_REF {
        return Mark::Misses;
    }
    cell_at(known, parent.0)
}

fn verdict(
    parents: &[u32],
    sequences: &[u32],
    root: BlockSlot,
    known: &[Mark],
    start: BlockSlot,
) -> Mark
    ensures { Right parents.now sequences.now root.0 known.now
        → start.0 < slots_of sequences.now
        → reaches parents.now sequences.now root.0 (slots_of sequences.now) start.0 ≡ tells result }
{
    let mut current = start;
    for _ in 0..slots(sequences) {
        match above(parents, sequences, root, known, current) {
            Some(next) => current = next,
            None => return told_at(root, known, current),
        }
    }
    Mark::Misses
}

// Every slot of the walk gets the verdict.
fn remember(
    parents: &[u32],
    sequences: &[u32],
    root: BlockSlot,
    known: &mut [Mark],
    start: BlockSlot,
    verdict: Mark,
)
    ensures { Right parents.now sequences.now root.0 known.old
        → start.0 < slots_of sequences.now
        → reaches parents.now sequences.now root.0 (slots_of sequences.now) start.0 ≡ tells verdict
        → Right parents.now sequences.now root.0 known.new }
{
    let mut current = start;
    for _ in 0..slots(sequences) {
        let Some(next) = above(parents, sequences, root, known, current) else {
            break;
        };
        put_cell(known, current.0, verdict);
        current = next;
    }
    put_cell(known, current.0, verdict);
}

#[tactic(auto, unfolding(rules::specs::BlockTable::in_subtree))]
fn is_under(
    parents: &[u32],
    sequences: &[u32],
    root: BlockSlot,
    known: &mut [Mark],
    slot: BlockSlot,
) -> bool
    ensures { Right parents.now sequences.now root.0 known.old
        → slot.0 < slots_of sequences.now
        → (result ≡ in_subtree parents.now sequences.now root.0 slot.0)
        × Right parents.now sequences.now root.0 known.new }
{
    if !is_occupied(sequences, slot) {
        return false;
    }
    let told = told_at_once(parents, root, known, slot);
    if told.is_known() {
        put_cell(known, slot.0, told);
        return told.reaches();
    }
    let mark = verdict(parents, sequences, root, known, slot);
    remember(parents, sequences, root, known, slot, mark);
    mark.reaches()
}

fn mark_known(
    parents: &[u32],
    sequences: &[u32],
    root: BlockSlot,
    known: &mut [Mark],
    out: &mut [u32],
) -> u32
    ensures { Right parents.now sequences.now root.0 known.old
        → (result ≡ length (mark_subtree parents.now sequences.now root.0))
        × (out.new ≡ sets out.old 0 (mark_subtree parents.now sequences.now root.0)) }
{
    let mut count: u32 = 0;
    for i in 0..slots(sequences) {
        if is_under(parents, sequences, root, known, BlockSlot(i)) {
            put_cell(out, count, i);
            count += 1;
        }
    }
    count
}

// Writes the slots into `out` and gives their number; a slot that `out` has no room for is left out. Slots past the last
// place are not remembered, which costs time alone.
#[tactic(auto, unfolding(rules::specs::BlockTable::mark_subtree))]
pub fn mark_subtree(parents: &[u32], sequences: &[u32], root: BlockSlot, out: &mut [u32]) -> u32
    ensures { (result ≡ length (mark_subtree parents.now sequences.now root.0))
        × (out.new ≡ sets out.old 0 (mark_subtree parents.now sequences.now root.0)) }
{
    if !is_occupied(sequences, root) {
        return 0;
    }
    let mut known = [Mark::Unknown; 1024];
    mark_known(parents, sequences, root, &mut known, out)
}

// Whether bit 0 of the flags is set in a listed slot, be it occupied or not.
pub fn any_active(flags: &[u8], listed: &[u32]) -> bool
    ensures { result ≡ any_active flags.now listed.now }
{
    listed
        .iter()
        .any(|slot| is_on_active_chain(flags, BlockSlot(*slot)))
}
