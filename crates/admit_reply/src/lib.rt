// What admit answers, read off before anything is written.
#![tactic(auto)]

ghost use Rattle.std.specs.Prelude.{◌≡◌, ℕ};
ghost use Rattle.rules.specs.Records.{viewed};
ghost use Rattle.rules.specs.Answers.{admitted_said};
ghost use Rattle.rules.specs.Calls.{state_of, admit as admit_rule};

use blocks::{find, next_free_index};
use cells::{hash_at, same_hash};
use rules::{BlockSlot, Refusal, Sequence, View};
use shape::is_shaped;

// The lowest empty slot, which the block is to get, or the first refusal that applies.
pub fn reply(
    view: &View,
    sequence: Sequence,
    hash: &[u8],
    previous: &[u8],
) -> Result<BlockSlot, Refusal>
    ensures { (a arrival : ℕ)
        → admitted_said result
        ≡ (admit_rule (state_of (viewed view.now) a) sequence.0 hash.now previous.now arrival).answer }
{
    if !is_shaped(view) {
        return Err(Refusal::Shape);
    }
    if hash.len() != 32 || previous.len() != 32 {
        return Err(Refusal::HashLength);
    }
    if sequence == Sequence::NONE_REF {
        return Err(Refusal::ReservedSequence);
    }
    let own = hash_at(hash, 0);
    if same_hash(own, [0u8; 32]) {
        return Err(Refusal::ZeroHash);
    }
    if find(view.hashes, view.sequences, sequence, own).is_some() {
        return Err(Refusal::Known);
    }
    next_free_index(view.sequences).ok_or(Refusal::Full)
}
