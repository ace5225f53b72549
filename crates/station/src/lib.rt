// What a station links: the calls on lent buffers as C functions, each with its equation. The upper half of an answer is the refusal, or 0.
#![tactic(auto)]

pub mod branches;
pub mod look;
pub mod record;
pub mod recover;
pub mod restore;
pub mod screen;
pub mod tree;
