// Fields: what stands before the first space of a line, and what stands after it.
ghost use Rattle.std.specs.Prelude.{◌≡◌};
ghost use Rattle.trial_lines.specs.Reading.{field_length, first as first_rule, rest as rest_rule, letter as letter_rule};

// How many bytes stand before the first space; all where there is none.
pub fn field_length(line: &[u8]) -> usize
    ensures { result ≡ field_length line.now }
{
    line.iter()
        .position(|byte| *byte == b' ')
        .unwrap_or(line.len())
}

// The bytes before the first space; all where there is none.
#[tactic(auto, using(crate::proofs::Bytes::field_short))]
pub fn first(line: &[u8]) -> &[u8]
    ensures { result.now ≡ first_rule line.now }
{
    &line[0..field_length(line)]
}

// What follows the first space; nothing where there is none.
#[tactic(auto, using(crate::proofs::Bytes::field_short))]
pub fn rest(line: &[u8]) -> &[u8]
    ensures { result.now ≡ rest_rule line.now }
{
    line.get(field_length(line) + 1..).unwrap_or(&[])
}

// The first field if it is one byte, else 0.
#[tactic(auto, using(crate::proofs::Bytes::field_short))]
pub fn letter(line: &[u8]) -> u8
    ensures { result ≡ letter_rule line.now }
{
    if field_length(line) == 1 { line[0] } else { 0 }
}
