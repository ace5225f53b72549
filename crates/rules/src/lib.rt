// The types that every crate shares: slots and sequences, each its own type, the two records, and what is answered. The tables are lent as
// slices, a field each, where some are written: C lends some to be read and others to be written, and through a struct of lent slices no
// proof splits the two. Where all are read they are a View.
#![tactic(auto)]

ghost use Rattle.std.specs.Prelude.{◌≡◌};
ghost use Rattle.rules.specs.Records.{empty_block, empty_head, status_number, status_from};

// A place in the block table; laid out for C, as the record of the active head and those of the head screen hold one.
#[repr(C)]
#[derive(Clone, Copy, PartialEq, Eq)]
pub struct BlockSlot(pub u32);

// A place in the head table.
#[derive(Clone, Copy, PartialEq, Eq, PartialOrd, Ord)]
pub struct HeadSlot(pub u32);

// A block's sequence number; laid out for C, as a record of the head screen holds one.
#[repr(C)]
#[derive(Clone, Copy, PartialEq, Eq, PartialOrd, Ord)]
pub struct Sequence(pub u32);

// Whether a head is connected or stored; laid out for C, as a record of the head screen holds one: four bytes there, which no enum has here.
#[repr(C)]
#[derive(Clone, Copy, PartialEq, Eq)]
pub struct HeadKind(pub u32);

// No block, no head, and the sequence of an empty slot: one number, and a constant of each type.
impl BlockSlot {
    pub const NONE_REF: BlockSlot = BlockSlot(u32::MAX);
}

impl HeadSlot {
    pub const NONE_REF: HeadSlot = HeadSlot(u32::MAX);
}

impl Sequence {
    pub const NONE_REF: Sequence = Sequence(u32::MAX);
}

impl HeadKind {
    pub const STORED: HeadKind = HeadKind(0);

    pub const CONNECTED: HeadKind = HeadKind(1);
}

// A block: bit 0 of its flags says that it is on the active chain, bits 1 and 2 are its status.
#[derive(Clone, Copy)]
pub struct Block {
    pub hash: [u8; 32],
    pub parent: BlockSlot,
    pub sequence: Sequence,
    pub count: u8,
    pub flags: u8,
}

impl Block {
    // The fixed record of an empty slot: parent and sequence NONE_REF, all else zero.
    pub fn empty() -> Block
        ensures { result ≡ empty_block }
    {
        Block {
            hash: [0u8; 32],
            parent: BlockSlot::NONE_REF,
            sequence: Sequence::NONE_REF,
            count: 0,
            flags: 0,
        }
    }
}

// A head: its tail or connection slot stands in `tail`, its last request time in `requested`, its flag in bit 0 of `connected`.
#[derive(Clone, Copy)]
pub struct Head {
    pub tip: BlockSlot,
    pub tail: BlockSlot,
    pub missing: [u8; 32],
    pub requested: u64,
    pub arrival: u64,
    pub connected: u8,
}

impl Head {
    // The fixed record of an empty head: tip and tail NONE_REF, all else zero.
    pub fn empty() -> Head
        ensures { result ≡ empty_head }
    {
        Head {
            tip: BlockSlot::NONE_REF,
            tail: BlockSlot::NONE_REF,
            missing: [0u8; 32],
            requested: 0,
            arrival: 0,
            connected: 0,
        }
    }
}

// Both tables, lent to be read.
#[derive(Clone, Copy)]
pub struct View<'a> {
    pub hashes: &'a [u8],
    pub parents: &'a [u32],
    pub sequences: &'a [u32],
    pub counts: &'a [u8],
    pub flags: &'a [u8],
    pub tips: &'a [u32],
    pub tails: &'a [u32],
    pub missing: &'a [u8],
    pub requested: &'a [u64],
    pub arrivals: &'a [u64],
    pub connected: &'a [u8],
}

// What bits 1 and 2 of a block's flags say; 3 reads as Stored.
#[derive(Clone, Copy)]
pub enum BlockStatus {
    Stored = 0,
    Connected = 1,
    Active = 2,
}

impl BlockStatus {
    // Of a number; one that is no status reads as Stored.
    #[tactic(auto, unfolding(crate::specs::Records::status_from))]
    pub fn of(number: u32) -> BlockStatus
        ensures { status_number result ≡ status_from number }
    {
        match number {
            1 => BlockStatus::Connected,
            2 => BlockStatus::Active,
            _ => BlockStatus::Stored,
        }
    }
}

// A head in use with its tip and its anchor.
#[derive(Clone, Copy)]
pub struct UsedHead {
    pub head: HeadSlot,
    pub tip: BlockSlot,
    pub anchor: BlockSlot,
}

// Why a block gets no slot.
#[derive(Clone, Copy)]
pub enum InsertError {
    ReservedSequence,
    Full,
}

// Where the parent walk of a tip ends.
#[derive(Clone, Copy)]
pub enum Located {
    Connection(BlockSlot),
    Tail(BlockSlot),
}

// A head to ask for its missing parent, with the sequence that it claims.
#[derive(Clone, Copy)]
pub struct Recovery {
    pub head: HeadSlot,
    pub claimed: Sequence,
}

// Why a call is refused, by its number.
#[derive(Clone, Copy)]
pub enum Refusal {
    Shape = 1,
    HashLength = 2,
    NoBlock = 3,
    ReservedSequence = 4,
    ZeroHash = 5,
    Known = 6,
    Full = 7,
    NotNext = 8,
    HoldsActive = 9,
    ShortList = 10,
}

// The record: the slot of the active head, or NONE_REF.
#[repr(C)]
#[derive(Clone, Copy)]
pub struct ActiveHead {
    pub slot: BlockSlot,
}

// The answer of under: how many blocks hang under a block, itself among them, and the highest sequence among them.
#[derive(Clone, Copy)]
pub struct Hanging {
    pub blocks: u32,
    pub highest: Sequence,
}

// A record of the head screen: a head's tip, the tip's sequence, which is NONE_REF where the tip is empty, its kind and its anchor.
#[repr(C)]
#[derive(Clone, Copy)]
pub struct HeadRow {
    pub tip: BlockSlot,
    pub sequence: Sequence,
    pub kind: HeadKind,
    pub anchor: BlockSlot,
}

// What timer asks for: the parent of a head's tail, by the sequence that the head claims and the hash that it misses.
#[derive(Clone, Copy)]
pub struct Request {
    pub head: HeadSlot,
    pub claimed: Sequence,
    pub missing: [u8; 32],
}
