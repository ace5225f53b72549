// The lines of a trial, read and written. A line is a letter and its fields, each after exactly one space. Whatever is
// not exactly that is unread: an empty line, a doubled, leading or trailing space, a carriage return, a field missing
// or too many, a hash that is not two lower-case hexadecimal digits, and a number that does not fit its field. Numbers
// have 32 bits, times 64; leading zeros are read. The end of the line is no part of what is read here.
#![tactic(auto)]

pub mod answers;
pub mod begun;
pub mod chunks;
pub mod fields;
pub mod lines;
pub mod numbers;
pub mod page;
pub mod read;

use rules::{BlockSlot, Sequence};

// How many bytes of input are taken at once.
pub const CHUNK: usize = 2048;

// What a line asks for. A hash is the byte that it has 32 times.
#[derive(Clone, Copy)]
pub enum Line {
    Fresh(u32, u32),
    Admit(Sequence, u8, u8, u64),
    Promote(BlockSlot),
    Remove(BlockSlot),
    Under(BlockSlot),
    Screen,
    Timer(u64, u64),
    Restart(u64),
}
