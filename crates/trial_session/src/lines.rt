// Lines done.
ghost use Rattle.std.specs.Prelude.{◌≡◌, if◌then◌else◌};
ghost use Rattle.trial_lines.specs.Fed.{Leaves};
ghost use Rattle.trial_session.specs.Session.{Session as SessionRule};
ghost use Rattle.trial_session.specs.Held.{Held, held_of, kept_of, kept_byte, kept_closed, asked as asked_rule, sizes_after, DoesLine};

use crate::{Session, Trial};
use trial_calls::Told;
use trial_lines::Line;
use trial_lines::begun::Begun;
use trial_lines::chunks::TakesBytes;
use trial_lines::page::Page;

// The sizes that a line's call is given: its own if it is fresh.
#[tactic(auto, unfolding(crate::specs::Held::asked))]
fn asked(trial: Trial, line: Option<Line>) -> Trial
    ensures { result ≡ asked_rule trial line }
{
    match line {
        Some(Line::Fresh(n, m)) => Trial { n, m, ..trial },
        _ => trial,
    }
}

// New tables bring their sizes.
#[tactic(auto, unfolding(crate::specs::Held::sizes_after))]
fn after(trial: Trial, sizes: Trial, told: Told) -> Trial
    ensures { result ≡ sizes_after (if told.renewed then sizes else trial) told.active.0 }
{
    let kept = if told.renewed { sizes } else { trial };
    Trial {
        active: told.active,
        ..kept
    }
}

impl Session {
    // A line's call.
    fn do_line(&mut self, line: Option<Line>, page: &mut Page<'_>)
        ensures { DoesLine (held_of self.old) line page.old (held_of self.new) page.new }
    {
        let trial = self.trial;
        let sizes = asked(trial, line);
        let told = self
            .arrays
            .answer(sizes.n, sizes.m, trial.active, line, page);
        self.trial = after(trial, sizes, told);
    }

    // The last line may lack its end.
    pub(crate) fn end_last(&mut self, page: &mut Page<'_>)
        ensures { Leaves (kept_closed (kept_of self.old)) page.old (kept_of self.new) page.new }
    {
        if self.begun.has_begun() {
            let line = self.begun.line();
            self.begun = Begun::new();
            self.do_line(line, page);
        }
    }
}

impl TakesBytes for Session {
    ghost State = { Held × SessionRule };

    ghost shown = { kept_of };

    ghost one = { kept_byte };

    // A byte that ends a line has it done.
    fn take_byte(&mut self, byte: u8, page: &mut Page<'_>) {
        if let Some(line) = self.begun.take(byte) {
            self.do_line(line.line(), page);
        }
    }
}
