// Fields as numbers: decimal, of 64 and of 32 bits, and two lower-case hexadecimal digits.
ghost use Rattle.std.specs.Prelude.{◌≡◌};
ghost use Rattle.trial_lines.specs.Reading.{all_digits, number, hex_digit, hash_byte, time_most, word_most};

// Whether every byte is a decimal digit.
#[tactic(auto, unfolding(crate::specs::Reading::all_digits))]
pub fn all_digits(bytes: &[u8]) -> bool
    ensures { result ≡ all_digits bytes.now }
{
    bytes.iter().all(u8::is_ascii_digit)
}

// One decimal digit or more, of a value no greater than the most; anything else is unread.
#[tactic(auto, using(crate::proofs::Bytes::values), unfolding(crate::specs::Reading::number))]
pub fn read_number(bytes: &[u8], most: u64) -> Option<u64>
    ensures { result ≡ number most bytes.now }
{
    if bytes.is_empty() {
        return None;
    }
    let mut n: u64 = 0;
    for byte in bytes {
        if !byte.is_ascii_digit() {
            return None;
        }
        let digit = (*byte - b'0') as u64;
        n = n.checked_mul(10)?.checked_add(digit)?;
    }
    if n <= most { Some(n) } else { None }
}

// A decimal number of at most 64 bits; anything else is unread.
pub fn read_time(bytes: &[u8]) -> Option<u64>
    ensures { result ≡ number time_most bytes.now }
{
    read_number(bytes, u64::MAX)
}

// A decimal number of at most 32 bits; anything else is unread.
#[tactic(auto, unfolding(crate::specs::Reading::number))]
pub fn read_word(bytes: &[u8]) -> Option<u32>
    ensures { result ≡ number word_most bytes.now }
{
    let n = read_number(bytes, u32::MAX as u64)?;
    Some(n as u32)
}

fn hex_digit(byte: u8) -> Option<u8>
    ensures { result ≡ hex_digit byte }
{
    match byte {
        b'0'..=b'9' => Some(byte - 48),
        b'a'..=b'f' => Some(byte - 87),
        _ => None,
    }
}

// The byte that two lower-case hexadecimal digits give; anything else is unread.
#[tactic(auto, unfolding(crate::specs::Reading::hash_byte))]
pub fn read_hash(bytes: &[u8]) -> Option<u8>
    ensures { result ≡ hash_byte bytes.now }
{
    if bytes.len() != 2 {
        return None;
    }
    let high = hex_digit(bytes[0])?;
    let low = hex_digit(bytes[1])?;
    Some(high * 16 + low)
}
