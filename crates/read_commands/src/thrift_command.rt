// The command `thrift`.
ghost use Rattle.std.specs.Prelude.{◌≡◌, ◌≤◌, ◌+◌, IfSome, IfOk, IfErr};
ghost use Rattle.std.specs.FinMap.{get};
ghost use Rattle.pme_base.specs.Causes.{CausedBy};
ghost use Rattle.pme_base.specs.Steps.{Answers, ReadsFail, Quiet};
ghost use Rattle.thrift_compact.specs.View.{view};
ghost use Rattle.command_parts.specs.SmallFile.{small_bytes};
ghost use Rattle.command_parts.specs.TextCommand.{AnswersText};
ghost use Rattle.command_parts.specs.World.{RandomState, SinkState, world_with};
ghost use Rattle.read_commands.specs.ThriftCommand.{ThriftGuarantees, IsTextOf, IsFileText, is_thrift_cause};
ghost use Rattle.read_commands.specs.ThriftCommand as defined;

use byte_texts::push_decimal;
use command_line::ThriftArgs;
use command_parts::{Stop, about, print_text, read_small};
use pme_base::{
    Bytes, Cause, Detail, Files, OutOfMemory, Place, Refusal, SMALL_FILE_LIMIT, Sink,
    plain_refusal, refusal_at,
};
use std::alloc::Global;
use thrift_compact::{TVal, ThriftRefusal, read_tree, show_tree};

/// Prints the Thrift struct at the front of a file as text, and the number of bytes after it.
pub fn thrift<F: Files, O: Sink>(
    alloc: Global,
    args: ThriftArgs,
    files: &mut F,
    out: &mut O,
) -> Result<(), Stop>
    ensures guarantees { (draws : RandomState) (err : SinkState)
        → let w = world_with draws err F.published F.given F.faults O.written O.faults in ThriftGuarantees args (w files.old out.old) (w files.new out.new) result }
{
    let text = thrift_text(alloc, files, args.file.as_str());
    print_text(alloc, about(alloc, text, args.file), out)
}

/// The text of the struct at the front of the file `name`.
fn thrift_text<F: Files>(alloc: Global, files: &mut F, name: &str) -> Result<Bytes, Refusal>
    ensures answer { AnswersText result
        (λ files. defined.thrift_text (get files name.now)) (F.published files.old) }
    ensures held { IfOk result (λ text. IfSome (F.published files.old)
        (λ files. IsFileText (get files name.now) text)) }
    ensures reads { ReadsFail (F.faults files.old) (F.faults files.new) result }
    ensures causes { CausedBy is_thrift_cause result }
    ensures published { F.published files.new ≡ F.published files.old }
    ensures unread { IfSome (F.published files.old)
        (λ published. IfErr (small_bytes (get published name.now))
        (λ _. F.given files.new ≡ F.given files.old)) }
    ensures given { F.given files.new ≤ F.given files.old + SMALL_FILE_LIMIT }
{
    match read_small(alloc, files, name) {
        Ok(bytes) => struct_text(alloc, bytes.as_slice()),
        Err(refusal) => Err(refusal),
    }
}

/// The text of the struct at the front of the bytes.
fn struct_text(alloc: Global, bytes: &[u8]) -> Result<Bytes, Refusal>
    ensures answer { Answers result (defined.struct_text bytes.now) }
    ensures held { IfOk result (λ text. IsTextOf bytes.now text) }
    ensures quiet { Quiet result }
    ensures causes { CausedBy is_thrift_cause result }
{
    match read_tree(alloc, bytes) {
        Ok((tree, count)) => match tree_text(alloc, &tree, bytes.len() - count) {
            Ok(text) => Ok(text),
            Err(_) => Err(plain_refusal(Cause::OutOfMemory)),
        },
        Err(refusal) => Err(bad_thrift(refusal)),
    }
}

/// The refusal of bytes that don't begin with a struct.
fn bad_thrift(refusal: ThriftRefusal) -> Refusal
    ensures { result ≡ defined.refused_thrift refusal }
{
    match refusal {
        ThriftRefusal::Bad { at, why } => {
            refusal_at(Cause::BadThrift, Place::file(), at, Detail::Thrift(why))
        }
        ThriftRefusal::OutOfMemory => plain_refusal(Cause::OutOfMemory),
    }
}

/// The text of a tree, and the line that counts the bytes after it.
fn tree_text(alloc: Global, tree: &TVal, rest: usize) -> Result<Bytes, OutOfMemory>
    ensures { IfOk result (λ text. text ≡ defined.tree_text (view tree.now) rest) }
{
    let mut text = Bytes::new(alloc);
    show_tree(tree, &mut text)?;
    text.extend(b"\nrest ")?;
    push_decimal(&mut text, rest as u64)?;
    text.push(b'\n')?;
    Ok(text)
}
