// Which heads lost their tip, and which of them moves to the root's parent.
#![tactic(auto)]

ghost use Rattle.std.specs.Prelude.{◌≡◌};
ghost use Rattle.rules.specs.Common.{lowest};
ghost use Rattle.rules.specs.Records.{slots_of};
ghost use Rattle.rules.specs.Removal.{listed, head_freed, takes_over, heir as heir_rule};
ghost use Rattle.rules.specs.Answers.{head_found};

use blocks::is_occupied;
use cells::{cell_at, slots};
use children::is_childless;
use heads::{is_used, slot_of_head};
use rules::{BlockSlot, HeadSlot};

fn is_listed(deleted: &[u32], slot: BlockSlot) -> bool
    ensures { result ≡ listed deleted.now slot.0 }
{
    deleted.contains(&slot.0)
}

// Whether the head is in use and its tip is one of the listed blocks.
#[tactic(auto, unfolding(rules::specs::Removal::head_freed))]
pub fn is_head_freed(tips: &[u32], deleted: &[u32], head: HeadSlot) -> bool
    ensures { result ≡ head_freed tips.now deleted.now head.0 }
{
    is_used(tips, head) && is_listed(deleted, BlockSlot(cell_at(tips, head.0)))
}

#[tactic(auto, unfolding(rules::specs::Removal::takes_over))]
fn takes_over(parents: &[u32], sequences: &[u32], tips: &[u32], reattach: BlockSlot) -> bool
    ensures { result ≡ takes_over parents.now sequences.now tips.now reattach.0 }
{
    is_occupied(sequences, reattach)
        && slot_of_head(tips, reattach).is_none()
        && is_childless(parents, sequences, reattach)
}

fn first_freed(tips: &[u32], deleted: &[u32]) -> Option<HeadSlot>
    ensures { head_found result ≡ lowest (head_freed tips.now deleted.now) (slots_of tips.now) }
{
    (0..slots(tips))
        .map(HeadSlot)
        .find(|head| is_head_freed(tips, deleted, *head))
}

// The head that moves to the root's parent, if one does.
#[tactic(auto, unfolding(rules::specs::Removal::heir))]
pub fn heir(
    parents: &[u32],
    sequences: &[u32],
    tips: &[u32],
    deleted: &[u32],
    reattach: BlockSlot,
) -> Option<HeadSlot>
    ensures { head_found result
        ≡ heir_rule parents.now sequences.now tips.now deleted.now reattach.0 }
{
    if takes_over(parents, sequences, tips, reattach) {
        first_freed(tips, deleted)
    } else {
        None
    }
}
