// The lines of a screen, on a page.
ghost use Rattle.std.specs.Prelude.{◌≡◌, []};
ghost use Rattle.rules.specs.Answers.{screened_said};
ghost use Rattle.screen_call.specs.Keys.{rows_in, rows_of};
ghost use Rattle.trial_lines.specs.Writing.{rows_lines};
ghost use Rattle.trial_lines.specs.Printing.{printed};
ghost use Rattle.trial_lines.specs.Said.{said};

use rules::Refusal;
use screen_call::{key_at, row_at};
use trial_lines::answers::refusal_line;
use trial_lines::lines::row_line;
use trial_lines::page::Page;

#[tactic(auto, using(crate::proofs::Rows::rows))]
fn show_rows(
    sequences: &[u32],
    tips: &[u32],
    tails: &[u32],
    connected: &[u8],
    keys: [u64; 64],
    rows: usize,
    page: &mut Page<'_>,
)
    ensures { page.new ≡ printed page.old
        (rows_lines (rows_in sequences.now tips.now tails.now connected.now keys rows)) }
{
    for i in 0..rows {
        let row = row_at(sequences, tips, tails, connected, key_at(keys, i));
        row_line(page, row);
    }
}

// A `V` line for each record of the screen whose keys are given, or the refusal.
pub fn screen_lines(
    sequences: &[u32],
    tips: &[u32],
    tails: &[u32],
    connected: &[u8],
    keys: [u64; 64],
    answer: Result<u32, Refusal>,
    page: &mut Page<'_>,
)
    ensures { page.new ≡ printed page.old
        (said []
        (screened_said answer
        (rows_in sequences.now tips.now tails.now connected.now keys (rows_of answer)))) }
{
    match answer {
        Ok(rows) => show_rows(sequences, tips, tails, connected, keys, rows as usize, page),
        Err(why) => refusal_line(page, why),
    }
}
