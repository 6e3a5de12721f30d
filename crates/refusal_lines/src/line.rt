// The line of a refusal.
ghost use Rattle.std.specs.Prelude.{◌≡◌, ◌++◌, OnOk, IfOk, codes};
ghost use Rattle.std.specs.Fmt.{decimal};
ghost use Rattle.refusal_lines.specs.CauseRows as rows;
ghost use Rattle.refusal_lines.specs.DetailText.{detail_text};
ghost use Rattle.refusal_lines.specs.RefusalText as defined;

use crate::cause_table::{LineForm, cause_name, line_form, status_number};
use crate::detail_text::push_detail;
use crate::place_text::push_place;
use byte_texts::{push_decimal, push_text};
use pme_base::{Bytes, Cause, OutOfMemory, Refusal};
use std::alloc::Global;

/// The line of a refusal, with its line feed. `subject` is the name of the file that the refusal is about; lines of the
/// form `Bare` don't contain it.
pub fn refusal_line(alloc: Global, refusal: &Refusal, subject: &[u8]) -> Result<Bytes, OutOfMemory>
    ensures { IfOk result (λ line. line ≡ defined.refusal_line refusal.now subject.now) }
{
    let mut line = Bytes::new(alloc);
    push_cause(&mut line, refusal.cause)?;
    push_form(&mut line, refusal, subject)?;
    line.push(b'\n')?;
    Ok(line)
}

/// Appends `refused`, the number and the name of a cause.
fn push_cause(line: &mut Bytes, cause: Cause) -> Result<(), OutOfMemory>
    ensures { OnOk result (line.new ≡ line.old ++ (codes "refused " ++
        decimal (rows.status_number cause) ++ codes " " ++ rows.cause_name cause)) }
{
    push_text(line, "refused ")?;
    push_decimal(line, u64::from(status_number(cause)))?;
    push_text(line, " ")?;
    push_text(line, cause_name(cause))
}

/// Appends the rest of the line, by the form of its cause.
fn push_form(line: &mut Bytes, refusal: &Refusal, subject: &[u8]) -> Result<(), OutOfMemory>
    ensures { OnOk result (line.new ≡ line.old ++ defined.form_text
        (rows.line_form refusal.now.cause) refusal.now subject.now) }
{
    match line_form(refusal.cause) {
        LineForm::Place => {
            push_subject(line, subject)?;
            push_text(line, " ")?;
            push_place(line, &refusal.place)?;
            push_text(line, " at ")?;
            push_decimal(line, refusal.at)?;
            push_detail(line, &refusal.detail)
        }
        LineForm::File => {
            push_subject(line, subject)?;
            push_detail(line, &refusal.detail)
        }
        LineForm::Bare => Ok(()),
    }
}

fn push_subject(line: &mut Bytes, subject: &[u8]) -> Result<(), OutOfMemory>
    ensures { OnOk result (line.new ≡ line.old ++ (codes " in " ++ subject.now)) }
{
    push_text(line, " in ")?;
    line.extend(subject)
}
