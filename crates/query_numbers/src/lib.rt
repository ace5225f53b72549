// The numbers that stand for answers: a refusal's, NONE_REF for none, 1 and 0 for yes and no.
#![tactic(auto)]

ghost use Rattle.std.specs.Prelude.{◌≡◌, ℕ, option_map};
ghost use Rattle.rules.specs.Records.{status_number};
ghost use Rattle.rules.specs.Answers.{refusal_number, anchor_located};
ghost use Rattle.query_numbers.specs.Numbers.{or_none, yes, anchor_number};

use rules::{BlockSlot, BlockStatus, HeadSlot, Located, Refusal};

// What stands for an answer that is not there.
const NOTHING: u32 = u32::MAX;

// An answer that a number of 32 bits stands for.
pub trait Numbered: Copy {
    ghost number: { Self → ℕ };

    fn number(self) -> u32
        ensures { result ≡ number self };
}

impl Numbered for BlockSlot {
    ghost number = { λ slot. slot.0 };

    fn number(self) -> u32 {
        let BlockSlot(slot) = self;
        slot
    }
}

impl Numbered for HeadSlot {
    ghost number = { λ head. head.0 };

    fn number(self) -> u32 {
        let HeadSlot(head) = self;
        head
    }
}

// A count of a block.
impl Numbered for u8 {
    ghost number = { λ count. count };

    fn number(self) -> u32 {
        u32::from(self)
    }
}

// How many there are.
impl Numbered for u32 {
    ghost number = { λ many. many };

    fn number(self) -> u32 {
        self
    }
}

// 0 for Stored, 1 for Connected, 2 for Active.
impl Numbered for BlockStatus {
    ghost number = { status_number };

    fn number(self) -> u32 {
        u32::from(self as u8)
    }
}

// 1 for yes, 0 for no.
impl Numbered for bool {
    ghost number = { yes };

    fn number(self) -> u32 {
        if self { 1 } else { 0 }
    }
}

// 0 where a call gives nothing but that it is done.
impl Numbered for () {
    ghost number = { λ _. 0 };

    fn number(self) -> u32 {
        0
    }
}

// From 1 for the shape to 10 for a list that is too short.
impl Numbered for Refusal {
    ghost number = { refusal_number };

    fn number(self) -> u32 {
        self as u32
    }
}

// The answer's number, or 4,294,967,295 for none.
pub fn number_or_none<A: Numbered>(answer: Option<A>) -> u32
    ensures { result ≡ or_none (option_map A.number answer) }
{
    answer.map_or(NOTHING, A::number)
}

// The slot of a tail; that of a connection with 2^32 added.
pub fn anchored(located: Located) -> u64
    ensures { result ≡ anchor_number (anchor_located located) }
{
    match located {
        Located::Connection(at) => 4294967296 + u64::from(at.0),
        Located::Tail(at) => u64::from(at.0),
    }
}
