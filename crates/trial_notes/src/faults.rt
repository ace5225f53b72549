// The first fault of a line: of the line as a whole, then of its letter, then field after field.
ghost use Rattle.std.specs.Prelude.{◌≡◌, ◌≢◌, ◌<◌, ◌≤◌, get_or, length, Some};
ghost use Rattle.std.specs.Fn.{FnReturnsAt};
ghost use Rattle.trial_lines.specs.Reading.{field_length, first as first_rule};
ghost use Rattle.trial_notes.specs.declared.Reason.TheVariants.{SpaceTwice, FieldExtra};
ghost use Rattle.trial_notes.specs.Faults.{number_fault, word_fault, time_fault, lowered as lowered_rule, hash_reason, hash_fault, is_letter, letter_reason, fresh_fault, admit_fault, timer_fault, screen_fault, fields_fault, fault_of};

use crate::Reason;
use trial_lines::fields::{field_length, first, letter, rest};
use trial_lines::numbers::{all_digits, read_hash, read_number};

#[tactic(auto, unfolding(crate::specs::Faults::number_fault))]
fn number_fault(field: &[u8], most: u64, larger: Reason) -> Option<Reason>
    ensures { result ≡ number_fault most larger field.now }
{
    if field.is_empty() {
        return Some(Reason::FieldMissing);
    }
    if !all_digits(field) {
        return Some(Reason::NoNumber);
    }
    match read_number(field, most) {
        Some(_) => None,
        None => Some(larger),
    }
}

fn lowered(byte: u8) -> u8
    ensures { result ≡ lowered_rule byte }
{
    match byte {
        b'A'..=b'F' => byte + 32,
        _ => byte,
    }
}

#[tactic(auto, unfolding(crate::specs::Faults::hash_reason))]
fn hash_reason(field: &[u8]) -> Reason
    ensures { result ≡ hash_reason field.now }
{
    if field.len() != 2 {
        return Reason::NoHash;
    }
    let lower = [lowered(field[0]), lowered(field[1])];
    match read_hash(&lower) {
        Some(_) => Reason::UpperHash,
        None => Reason::NoHash,
    }
}

#[tactic(auto, unfolding(crate::specs::Faults::hash_fault))]
fn hash_fault(field: &[u8]) -> Option<Reason>
    ensures { result ≡ hash_fault field.now }
{
    if field.is_empty() {
        return Some(Reason::FieldMissing);
    }
    match read_hash(field) {
        Some(_) => None,
        None => Some(hash_reason(field)),
    }
}

fn word_fault(field: &[u8]) -> Option<Reason>
    ensures { result ≡ word_fault field.now }
{
    number_fault(field, u32::MAX as u64, Reason::WordTooLarge)
}

fn time_fault(field: &[u8]) -> Option<Reason>
    ensures { result ≡ time_fault field.now }
{
    number_fault(field, u64::MAX, Reason::TimeTooLarge)
}

// A field at the start of what is left of a line, with others after it.
fn inner<F: Fn(&[u8]) -> Option<Reason>>(left: &[u8], fault: F) -> Option<Reason>
    requires { F.IsAlwaysCallable fault }
    ensures space { get_or left.now 0 0 ≡ 32 → result ≡ Some SpaceTwice }
    ensures field { get_or left.now 0 0 ≢ 32 → FnReturnsAt F.Fn fault (first_rule left.now) result }
{
    if left.starts_with(b" ") {
        return Some(Reason::SpaceTwice);
    }
    fault(first(left))
}

// A field that is all that is left.
fn last<F: Fn(&[u8]) -> Option<Reason>>(left: &[u8], fault: F) -> Option<Reason>
    requires { F.IsAlwaysCallable fault }
    ensures space { get_or left.now 0 0 ≡ 32 → result ≡ Some SpaceTwice }
    ensures extra { get_or left.now 0 0 ≢ 32 → field_length left.now < length left.now → result ≡ Some FieldExtra }
    ensures field { get_or left.now 0 0 ≢ 32 → length left.now ≤ field_length left.now → FnReturnsAt F.Fn fault left.now result }
{
    if left.starts_with(b" ") {
        return Some(Reason::SpaceTwice);
    }
    if field_length(left) < left.len() {
        return Some(Reason::FieldExtra);
    }
    fault(left)
}

#[tactic(auto, unfolding(crate::specs::Faults::fresh_fault, crate::specs::Faults::inner, crate::specs::Faults::last))]
fn fresh_fault(fields: &[u8]) -> Option<Reason>
    ensures { result ≡ fresh_fault fields.now }
{
    let n = inner(fields, word_fault);
    let m = last(rest(fields), word_fault);
    n.or(m)
}

#[tactic(auto, unfolding(crate::specs::Faults::admit_fault, crate::specs::Faults::inner, crate::specs::Faults::last))]
fn admit_fault(fields: &[u8]) -> Option<Reason>
    ensures { result ≡ admit_fault fields.now }
{
    let hashes = rest(fields);
    let later = rest(hashes);
    let sequence = inner(fields, word_fault);
    let hash = inner(hashes, hash_fault);
    let previous = inner(later, hash_fault);
    let arrival = last(rest(later), time_fault);
    sequence.or(hash.or(previous.or(arrival)))
}

#[tactic(auto, unfolding(crate::specs::Faults::timer_fault, crate::specs::Faults::inner, crate::specs::Faults::last))]
fn timer_fault(fields: &[u8]) -> Option<Reason>
    ensures { result ≡ timer_fault fields.now }
{
    let clock = inner(fields, time_fault);
    let retry = last(rest(fields), time_fault);
    clock.or(retry)
}

// V has no field: the line is its letter.
#[tactic(auto, unfolding(crate::specs::Faults::screen_fault))]
fn screen_fault(line: &[u8]) -> Option<Reason>
    ensures { result ≡ screen_fault line.now }
{
    if line.len() == 1 {
        return None;
    }
    if line.get(2) == Some(&b' ') {
        return Some(Reason::SpaceTwice);
    }
    Some(Reason::FieldExtra)
}

#[tactic(auto, unfolding(crate::specs::Faults::is_letter))]
fn is_letter(byte: u8) -> bool
    ensures { result ≡ is_letter byte }
{
    b"NAPDUVTR".contains(&byte)
}

// What has no such letter.
#[tactic(auto, unfolding(crate::specs::Faults::letter_reason))]
fn letter_reason(byte: u8) -> Reason
    ensures { result ≡ letter_reason byte }
{
    if is_letter(byte.saturating_sub(32)) {
        Reason::LowerLetter
    } else {
        Reason::NoLetter
    }
}

#[tactic(auto, unfolding(crate::specs::Faults::fields_fault, crate::specs::Faults::inner, crate::specs::Faults::last))]
fn fields_fault(line: &[u8]) -> Option<Reason>
    ensures { result ≡ fields_fault line.now }
{
    let fields = rest(line);
    match letter(line) {
        b'N' => fresh_fault(fields),
        b'A' => admit_fault(fields),
        b'P' | b'D' | b'U' => last(fields, word_fault),
        b'V' => screen_fault(line),
        b'T' => timer_fault(fields),
        b'R' => last(fields, time_fault),
        kind => Some(letter_reason(kind)),
    }
}

// The first fault of a line; none where it is read.
#[tactic(auto, unfolding(crate::specs::Faults::fault_of))]
pub fn fault(line: &[u8]) -> Option<Reason>
    ensures { result ≡ fault_of line.now }
{
    if line.is_empty() {
        return Some(Reason::Empty);
    }
    if line.ends_with(b"\r") {
        return Some(Reason::CarriageReturn);
    }
    if line.starts_with(b" ") {
        return Some(Reason::SpaceFirst);
    }
    if line.ends_with(b" ") {
        return Some(Reason::SpaceLast);
    }
    fields_fault(line)
}
