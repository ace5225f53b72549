// A line read: its letter says which fields follow.
ghost use Rattle.std.specs.Prelude.{◌≡◌};
ghost use Rattle.trial_lines.specs.Reading.{fresh_of, admit_of, slot_of, screen_read, timer_of, parse};

use crate::Line;
use crate::fields::{first, letter, rest};
use crate::numbers::{read_hash, read_time, read_word};
use rules::{BlockSlot, Sequence};

#[tactic(auto, unfolding(crate::specs::Reading::fresh_of))]
fn read_fresh(fields: &[u8]) -> Option<Line>
    ensures { result ≡ fresh_of fields.now }
{
    let n = read_word(first(fields))?;
    let m = read_word(rest(fields))?;
    Some(Line::Fresh(n, m))
}

#[tactic(auto, unfolding(crate::specs::Reading::admit_of))]
fn read_admit(fields: &[u8]) -> Option<Line>
    ensures { result ≡ admit_of fields.now }
{
    let hashes = rest(fields);
    let later = rest(hashes);
    let sequence = read_word(first(fields))?;
    let hash = read_hash(first(hashes))?;
    let previous = read_hash(first(later))?;
    let arrival = read_time(rest(later))?;
    Some(Line::Admit(Sequence(sequence), hash, previous, arrival))
}

// The letter has one field, a slot.
#[tactic(auto, unfolding(crate::specs::Reading::slot_of))]
fn read_slot(fields: &[u8]) -> Option<BlockSlot>
    ensures { result ≡ slot_of fields.now }
{
    read_word(fields).map(BlockSlot)
}

// V has no field: the line is its letter.
#[tactic(auto, unfolding(crate::specs::Reading::screen_read))]
fn read_screen(line: &[u8]) -> Option<Line>
    ensures { result ≡ screen_read line.now }
{
    if line.len() == 1 {
        Some(Line::Screen)
    } else {
        None
    }
}

#[tactic(auto, unfolding(crate::specs::Reading::timer_of))]
fn read_timer(fields: &[u8]) -> Option<Line>
    ensures { result ≡ timer_of fields.now }
{
    let clock = read_time(first(fields))?;
    let retry = read_time(rest(fields))?;
    Some(Line::Timer(clock, retry))
}

// What the line asks for: N, A, P, D, U, T or R with its fields, or V alone; anything else is unread.
#[tactic(auto, unfolding(crate::specs::Reading::parse))]
pub fn read_line(line: &[u8]) -> Option<Line>
    ensures { result ≡ parse line.now }
{
    let fields = rest(line);
    match letter(line) {
        b'N' => read_fresh(fields),
        b'A' => read_admit(fields),
        b'P' => read_slot(fields).map(Line::Promote),
        b'D' => read_slot(fields).map(Line::Remove),
        b'U' => read_slot(fields).map(Line::Under),
        b'V' => read_screen(line),
        b'T' => read_timer(fields),
        b'R' => read_time(fields).map(Line::Restart),
        _ => None,
    }
}
