// The notes as text on a page.
ghost use Rattle.std.specs.Prelude.{◌≡◌};
ghost use Rattle.trial_lines.specs.Printing.{printed};
ghost use Rattle.trial_notes.specs.Texts.{reason_text, note_text};

use crate::Reason;
use trial_lines::page::Page;

#[tactic(auto, unfolding(trial_lines::specs::Text::bytes_from, trial_lines::specs::Text::bytes, crate::specs::Texts::reason_text))]
fn reason_text(why: Reason) -> &'static [u8]
    ensures { result.now ≡ reason_text why }
{
    match why {
        Reason::TooLong => b"more than 128 bytes",
        Reason::Empty => b"empty",
        Reason::CarriageReturn => b"a carriage return at its end",
        Reason::SpaceFirst => b"a space before its letter",
        Reason::SpaceLast => b"a space at its end",
        Reason::SpaceTwice => b"two spaces in a row",
        Reason::NoLetter => b"the first field is none of N A P D U V T R",
        Reason::LowerLetter => b"its letter is in lower case",
        Reason::FieldMissing => b"a field is missing",
        Reason::FieldExtra => b"a field too many",
        Reason::NoNumber => b"a field is no decimal number",
        Reason::WordTooLarge => b"a number is above 4294967295",
        Reason::TimeTooLarge => b"a time is above 18446744073709551615",
        Reason::NoHash => b"a hash is not two hexadecimal digits",
        Reason::UpperHash => b"a hash is in upper case",
    }
}

// `line`, its number, a colon and the reason; nothing where there is no fault.
#[tactic(auto, unfolding(trial_lines::specs::Text::bytes_from, trial_lines::specs::Text::bytes, crate::specs::Texts::note_text), using(trial_lines::proofs::Printing::printing))]
pub fn put_note(page: &mut Page<'_>, number: u64, fault: Option<Reason>)
    ensures { page.new ≡ printed page.old (note_text number fault) }
{
    if let Some(why) = fault {
        page.text(b"line ");
        page.number(number);
        page.text(b": ");
        page.text(reason_text(why));
        page.put(b'\n');
    }
}
