// Why a command stopped: a refusal, and the file that it is about.
ghost use Rattle.std.specs.Prelude.{◌≡◌, ℕ, List, Bool, Option, Result, true, IfErr};
ghost use Rattle.pme_base.specs.declared.refusal.Cause.{Cause};
ghost use Rattle.pme_base.specs.declared.refusal.Refusal.{Refusal};
ghost use Rattle.pme_base.specs.Outside.{Published};
ghost use Rattle.pme_base.specs.Steps.{ReadsFail};
ghost use Rattle.command_parts.specs.World.{StopsReading};
ghost use Rattle.pme_base.specs.Causes.{CausedBy};
ghost use Rattle.command_parts.specs.TextCommand.{AnswersText, GivesText, StoppedBy};
ghost use Rattle.command_parts.specs.Stops as defined;

use pme_base::{Bytes, Cause, Refusal, Text, plain_refusal};
use refusal_lines::{LineForm, line_form};
use std::alloc::Global;

/// Why a command stopped: the refusal, and the file that it is about.
#[derive(Drop)]
pub struct Stop {
    /// The refusal.
    pub refusal: Refusal,
    /// The name of the file that it is about; empty where there is none.
    pub subject: Bytes,
}

/// The stop of a refusal about the file `name`. A refusal whose line names no file has an empty subject.
pub fn stop_of(alloc: Global, refusal: Refusal, name: Text) -> Stop
    ensures stop { result ≡ defined.stop_of refusal name }
    ensures subject { defined.IsAboutItsFile result }
{
    match line_form(refusal.cause) {
        LineForm::Bare => Stop {
            refusal,
            subject: Bytes::new(alloc),
        },
        _ => Stop {
            refusal,
            subject: name.into_bytes(),
        },
    }
}

/// The stop of a cause without a file, a place or values.
pub fn plain_stop(alloc: Global, cause: Cause) -> Stop
    ensures stop { result ≡ defined.plain_stop cause }
    ensures subject { defined.IsAboutItsFile result }
{
    Stop {
        refusal: plain_refusal(cause),
        subject: Bytes::new(alloc),
    }
}

/// Passes on a text. A refusal becomes a stop about the file `name`.
pub fn about(alloc: Global, text: Result<Bytes, Refusal>, name: Text) -> Result<Bytes, Stop>
    ensures stop { result ≡ defined.about name text }
    ensures gives { (published : Option Published) (texts : Published → Result (List ℕ) Refusal)
        → AnswersText text texts published → GivesText result
        (λ files. defined.about name (texts files)) published }
    ensures reads { (before now : ℕ) → ReadsFail before now text → StopsReading before now result }
    ensures causes { (is_cause : Cause → Bool) → CausedBy is_cause text → StoppedBy is_cause result }
    ensures named { IfErr result (defined.IsAboutFile name) }
    ensures subject { defined.StopsAbout result }
{
    match text {
        Ok(text) => Ok(text),
        Err(refusal) => Err(stop_of(alloc, refusal, name)),
    }
}
