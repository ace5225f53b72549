// Total reads and writes of lent buffers: past the end a read gives what an empty record has, and a write does nothing.
// Hashes by value: read, written, and compared from the first byte on.
#![tactic(auto)]

ghost use Rattle.std.specs.Prelude.{◌≡◌, ◌≢◌, true, false, ℕ, ◌+◌, ◌<◌, ◌≤◌, get_or, set};
ghost use Rattle.cells.specs.Places.{next_at};
ghost use Rattle.rules.specs.Hashes.{hash_at, first_byte, put_hash, same_hash, hash_less};
ghost use Rattle.rules.specs.Records.{NONE, slots_of};

// What a field has for each slot, or what is remembered of each.
pub trait Cell: Copy {
    ghost EMPTY: { Self };

    // What an empty record has there: zero, but for a word, which may be a reference or a sequence; where nothing is remembered yet, false.
    const EMPTY: Self;
}

impl Cell for u8 {
    ghost EMPTY = { 0 };

    const EMPTY: u8 = 0;
}

impl Cell for u32 {
    ghost EMPTY = { 4294967295 };

    const EMPTY: u32 = u32::MAX;
}

impl Cell for u64 {
    ghost EMPTY = { 0 };

    const EMPTY: u64 = 0;
}

impl Cell for bool {
    ghost EMPTY = { false };

    const EMPTY: bool = false;
}

// How many slots a field of this length has: no more than a reference can name.
#[tactic(auto, unfolding(rules::specs::Records::slots_of))]
pub fn slots(words: &[u32]) -> u32
    ensures { result ≡ slots_of words.now }
{
    words.len().min(u32::MAX as usize) as u32
}

// The cell in a place; past the end that of an empty record.
pub fn cell_at<C: Cell>(cells: &[C], at: u32) -> C
    ensures { result ≡ get_or cells.now at C.EMPTY }
{
    cell_from(cells, at as usize)
}

fn cell_from<C: Cell>(cells: &[C], k: usize) -> C
    ensures { result ≡ get_or cells.now k C.EMPTY }
{
    if k < cells.len() { cells[k] } else { C::EMPTY }
}

// Sets the cell in a place; past the end nothing changes.
pub fn put_cell<C: Cell>(cells: &mut [C], at: u32, value: C)
    ensures { cells.new ≡ set cells.old at value }
{
    let k = at as usize;
    if k < cells.len() {
        cells[k] = value;
    }
}

// The lowest place from `from` on that holds the value.
pub fn next_at(words: &[u32], from: u32, value: u32) -> Option<u32>
    ensures { result ≡ next_at words.now from value }
{
    let n = slots(words);
    let mut first = from;
    // By eights, as far as that goes: one by one is slower.
    while eight_differ(words, first, value) {
        first += 8;
    }
    (first..n).find(|k| cell_at(words, *k) == value)
}

// Eight slots at once: none holds the value.
#[tactic(auto, using(crate::proofs::Places::read_there), unfolding(rules::specs::Records::slots_of))]
fn eight_differ(words: &[u32], from: u32, value: u32) -> bool
    ensures { result ≡ true → (from + 8 ≤ slots_of words.now)
        × ((j : ℕ) → j < 8 → get_or words.now (from + j) NONE ≢ value) }
{
    let first = from as usize;
    if first + 8 > slots(words) as usize {
        return false;
    }
    let mut differ = true;
    for j in 0..8 {
        if words[first + j] == value {
            differ = false;
        }
    }
    differ
}

// The hash in a place of a buffer of hashes.
#[tactic(auto, using(crate::proofs::Whole::read_whole))]
pub fn hash_at(bytes: &[u8], at: u32) -> [u8; 32]
    ensures { result ≡ hash_at bytes.now at }
{
    let from = at as usize * 32;
    if from + 32 > bytes.len() {
        return padded_hash(&bytes[..bytes.len()], at);
    }
    let mut hash = [0u8; 32];
    hash.copy_from_slice(&bytes[from..from + 32]);
    hash
}

// A hash that the buffer's end may cut. Callers lend a slice made for it: their own then stays in registers, which is what makes
// them fast.
fn padded_hash(bytes: &[u8], at: u32) -> [u8; 32]
    ensures { result ≡ hash_at bytes.now at }
{
    let from = at as usize * 32;
    let mut hash = [0u8; 32];
    for k in 0..32 {
        hash[k] = cell_from(bytes, from + k);
    }
    hash
}

// The first byte of the hash in a place; 0 past the end.
#[tactic(auto, using(rules::proofs::Hashes::first_byte))]
pub fn first_byte(bytes: &[u8], at: u32) -> u8
    ensures { result ≡ first_byte (hash_at bytes.now at) }
{
    cell_from(bytes, at as usize * 32)
}

// Sets the hash in a place of a buffer of hashes; bytes past the end are dropped.
#[tactic(auto, using(crate::proofs::Whole::put_whole, crate::proofs::Whole::put_cut, crate::proofs::Whole::put_past))]
pub fn put_hash(bytes: &mut [u8], at: u32, hash: [u8; 32])
    ensures { bytes.new ≡ put_hash bytes.old at hash }
{
    let from = at as usize * 32;
    if from + 32 <= bytes.len() {
        bytes[from..from + 32].copy_from_slice(&hash);
    } else if from < bytes.len() {
        let room = bytes.len() - from;
        bytes[from..].copy_from_slice(&hash[..room]);
    }
}

// Whether two hashes are the same in all 32 bytes.
#[tactic(auto, using(crate::proofs::Compare::same_is))]
pub fn same_hash(a: [u8; 32], b: [u8; 32]) -> bool
    ensures { result ≡ same_hash a b }
{
    a == b
}

// Whether the hash in a place is this one; bytes past the end read as 0.
#[tactic(auto, using(crate::proofs::Whole::read_whole, crate::proofs::Compare::same_is))]
pub fn same_hash_at(bytes: &[u8], at: u32, hash: [u8; 32]) -> bool
    ensures { result ≡ same_hash (hash_at bytes.now at) hash }
{
    let from = at as usize * 32;
    if from + 32 > bytes.len() {
        return same_hash(padded_hash(&bytes[..bytes.len()], at), hash);
    }
    &bytes[from..from + 32] == hash.as_slice()
}

// Whether the first hash is the lower: the first byte that differs decides, and of equal hashes neither is. Byte by byte, since std's `<` of
// two arrays takes two to three times as long.
pub fn hash_less(a: [u8; 32], b: [u8; 32]) -> bool
    ensures { result ≡ hash_less a b }
{
    for k in 0..32 {
        if a[k] != b[k] {
            return a[k] < b[k];
        }
    }
    false
}
