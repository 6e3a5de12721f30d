// Printing a text to a sink.
ghost use Rattle.std.specs.Prelude.{◌≡◌, ℕ, List, Bool, Option, Result, true, IfOk, IfErr, OnOk, OnErr, IsOkAnd};
ghost use Rattle.pme_base.specs.Causes.{CausedBy, either};
ghost use Rattle.pme_base.specs.declared.refusal.Cause.{Cause};
ghost use Rattle.pme_base.specs.declared.refusal.Refusal.{Refusal};
ghost use Rattle.pme_base.specs.Outside.{Published, PutsFront, followed_by};
ghost use Rattle.pme_base.specs.Steps.{WritesFail};
ghost use Rattle.command_parts.specs.declared.stop.Stop.{Stop};
ghost use Rattle.command_parts.specs.World.{Appended, StopsReading, StopsWriting};
ghost use Rattle.command_parts.specs.Printing.{is_printing_cause};
ghost use Rattle.command_parts.specs.Stops.{StopsAbout};
ghost use Rattle.command_parts.specs.Printing as defined;
ghost use Rattle.command_parts.specs.TextCommand.{GivesText, TextAnswered, IsTextStop, IsQuietWriter, StoppedBy};

use crate::stop::{Stop, plain_stop};
use pme_base::{Bytes, Cause, OutOfMemory, Refusal, Sink, Trouble, plain_refusal};
use std::alloc::Global;

/// Writes all of `bytes`. If that fails, a prefix of them may have been written.
fn print<O: Sink>(bytes: &[u8], out: &mut O) -> Result<(), Refusal>
    ensures all { OnOk result (O.written out.new ≡ followed_by bytes.now (O.written out.old)) }
    ensures part { OnErr result (PutsFront bytes.now (O.written out.old) (O.written out.new)) }
    ensures writes { WritesFail (O.faults out.old) (O.faults out.new) result }
    ensures causes { CausedBy is_printing_cause result }
{
    match out.put(bytes) {
        Ok(()) => Ok(()),
        Err(Trouble::Failed) => Err(plain_refusal(Cause::WriteFault)),
        Err(Trouble::OutOfMemory) => Err(plain_refusal(Cause::OutOfMemory)),
    }
}

/// The bytes in lower-case hex with a line feed.
pub fn hex_line(alloc: Global, bytes: &[u8]) -> Result<Bytes, OutOfMemory>
    ensures { IfOk result (λ line. line ≡ defined.hex_line bytes.now) }
{
    let text = match hex::encode(alloc, bytes) {
        Ok(text) => text,
        Err(_) => return Err(OutOfMemory),
    };
    let mut line = text.into_bytes();
    line.reserve_exact(1)?;
    line.push(b'\n')?;
    Ok(Bytes::from_vec(line))
}

/// Ends a command that prints one text: prints the text, or passes on the stop that came in its place.
#[tactic(auto, using(crate::proofs::Prints::puts_appended))]
pub fn print_text<O: Sink>(
    alloc: Global,
    text: Result<Bytes, Stop>,
    out: &mut O,
) -> Result<(), Stop>
    ensures answered { (published : Option Published) (defined : Published → Result (List ℕ) Stop)
        → GivesText text defined published
        → TextAnswered defined published (O.written out.old) (O.written out.new) result }
    ensures printed { OnOk result (IsOkAnd text
        (λ t. O.written out.new ≡ followed_by t (O.written out.old))) }
    ensures reads { (before now : ℕ) → StopsReading before now text
        → StopsReading before now result }
    ensures writes { IsQuietWriter text → StopsWriting (O.faults out.old) (O.faults out.new) result }
    ensures causes { (is_cause : Cause → Bool) → StoppedBy is_cause text
        → StoppedBy (either is_cause is_printing_cause) result }
    ensures stops { IfErr result (IsTextStop text) }
    ensures appended { Appended (O.written out.old) (O.written out.new) }
    ensures subject { StopsAbout text → StopsAbout result }
{
    match text {
        Ok(text) => match print(text.as_slice(), out) {
            Ok(()) => Ok(()),
            Err(refusal) => Err(plain_stop(alloc, refusal.cause)),
        },
        Err(stop) => Err(stop),
    }
}
