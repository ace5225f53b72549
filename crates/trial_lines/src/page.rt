// What is printed: text in a lent buffer, from a place on. What has no room in the buffer is dropped.
ghost use Rattle.std.specs.Prelude.{◌≡◌, [], ◌∷◌, ◌%◌};
ghost use Rattle.trial_lines.specs.Writing.{digits, hex_char, hex, field, reference};
ghost use Rattle.trial_lines.specs.Printing.{page_at, printed};

use itoa::Buffer;
use rules::BlockSlot;

// A lent buffer, and the place after what is printed in it.
// Methods, not `write!` and `Display`: these promise their text at `Ok` alone, and that no `Err` comes of them was tried and is not proved.
#[derive(Drop)]
pub struct Page<'a> {
    pub bytes: &'a mut [u8],
    pub at: usize,
}

fn hex_char(n: u8) -> u8
    ensures { result ≡ hex_char (n % 16) }
{
    let d = n % 16;
    if d < 10 { 48 + d } else { 87 + d }
}

impl<'a> Page<'a> {
    // Nothing is printed yet.
    pub fn start(bytes: &'a mut [u8]) -> Page<'a>
        ensures { result ≡ page_at bytes.entry 0 }
    {
        Page { bytes, at: 0 }
    }

    // One byte.
    #[tactic(auto, unfolding(crate::specs::Printing::printed, crate::specs::Writing::place))]
    pub fn put(&mut self, byte: u8)
        ensures { self.new ≡ printed self.old (byte ∷ []) }
    {
        if self.at < self.bytes.len() {
            self.bytes[self.at] = byte;
            self.at += 1;
        }
    }

    // A text.
    #[tactic(auto, using(crate::proofs::Printing::printing))]
    pub fn text(&mut self, text: &[u8])
        ensures { self.new ≡ printed self.old text.now }
    {
        for byte in text {
            self.put(*byte);
        }
    }

    // A number in decimal digits, without leading zeros.
    #[tactic(auto, using(crate::proofs::Digits::decimal_digits))]
    pub fn number(&mut self, n: u64)
        ensures { self.new ≡ printed self.old (digits n) }
    {
        self.text(Buffer::new().format(n).as_bytes());
    }

    // A byte as two lower-case hexadecimal digits.
    #[tactic(auto, unfolding(crate::specs::Writing::hex), using(crate::proofs::Printing::printing))]
    pub fn hex(&mut self, byte: u8)
        ensures { self.new ≡ printed self.old (hex byte) }
    {
        self.put(hex_char(byte / 16));
        self.put(hex_char(byte));
    }

    // A space, and a number.
    #[tactic(auto, unfolding(crate::specs::Writing::field), using(crate::proofs::Printing::printing, crate::proofs::Digits::field_digits))]
    pub fn field(&mut self, n: u32)
        ensures { self.new ≡ printed self.old (field n) }
    {
        self.put(b' ');
        self.number(n as u64);
    }

    // A space, and a slot or a sequence: `-` is none.
    #[tactic(auto, unfolding(crate::specs::Writing::reference))]
    pub fn reference(&mut self, n: u32)
        ensures { self.new ≡ printed self.old (reference n) }
    {
        if n == BlockSlot::NONE_REF.0 {
            self.text(b" -");
        } else {
            self.field(n);
        }
    }
}
