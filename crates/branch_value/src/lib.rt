// Which of two branches is heavier: port of `Rank::outranks` of src/branch_value.rs.
#![tactic(auto)]

ghost use Rattle.std.specs.Prelude.{◌≡◌};
ghost use Rattle.rules.specs.Rank.{outranks as outranks_rule};

// What a branch is ranked by: its value, its length and its hash.
#[derive(Clone, Copy)]
pub struct Rank {
    pub value: u64,
    pub len: u16,
    pub hash: [u8; 32],
}

impl Rank {
    // Whether this branch has the higher value, then the greater length, then the lower hash; equal ranks do not outrank each other.
    pub fn outranks(self, other: Rank) -> bool
        ensures { result
            ≡ outranks_rule (record { value = self.value; length = self.len; hash = self.hash })
            (record { value = other.value; length = other.len; hash = other.hash }) }
    {
        self.value
            .cmp(&other.value)
            .then(self.len.cmp(&other.len))
            .then(other.hash.cmp(&self.hash))
            .is_gt()
    }
}
