// The command `module`.
ghost use Rattle.std.specs.Prelude.{◌≡◌, ◌≤◌, ◌+◌, length, vec_len, IfSome, IsSomeAnd, IfOk, IfErr};
ghost use Rattle.std.specs.FinMap.{get};
ghost use Rattle.pme_base.specs.Causes.{CausedBy};
ghost use Rattle.pme_base.specs.Steps.{Answers, ReadsFail};
ghost use Rattle.crypto_module.specs.Modules.{IsGcm};
ghost use Rattle.crypto_module.specs.Frames as frames;
ghost use Rattle.command_parts.specs.TextCommand.{AnswersText};
ghost use Rattle.command_parts.specs.World.{RandomState, SinkState, world_with};
ghost use Rattle.read_commands.specs.SealedFile.{plaintext_limit, opened_buffer, opened_file, sealed_bytes};
ghost use Rattle.read_commands.specs.ModuleCommand.{ModuleGuarantees, IsSealedText, is_opening_cause};
ghost use Rattle.read_commands.specs.ModuleCommand as defined;

use crate::opened::Opened;
use crate::sealed_file::read_sealed;
use aes_block::AesKey;
use command_line::{AssociatedData, ModuleArgs};
use command_parts::{Stop, about, hex_line, print_text};
use crypto_module::read_gcm;
use pme_base::{Bytes, Cause, Files, MODULE_LIMIT, Place, Refusal, Sink, plain_refusal};
use std::alloc::Global;

/// Opens the module that fills a file, and prints its plaintext in hex with a line feed.
pub fn module<F: Files, O: Sink>(
    alloc: Global,
    args: ModuleArgs,
    files: &mut F,
    out: &mut O,
) -> Result<(), Stop>
    ensures guarantees { (draws : RandomState) (err : SinkState)
        → let w = world_with draws err F.published F.given F.faults O.written O.faults in ModuleGuarantees args (w files.old out.old) (w files.new out.new) result }
{
    let text = module_text(alloc, &args, files);
    print_text(alloc, about(alloc, text, args.file), out)
}

/// The text that the command prints: the plaintext in hex with a line feed.
fn module_text<F: Files>(alloc: Global, args: &ModuleArgs, files: &mut F) -> Result<Bytes, Refusal>
    ensures answer { AnswersText result
        (λ files. defined.module_text args.now.key args.now.associated_data
        (get files args.now.file)) (F.published files.old) }
    ensures sealed { IfOk result (λ text. IfSome (F.published files.old) (λ published.
        IsSealedText args.now.key args.now.associated_data (get published args.now.file) text)) }
    ensures reads { ReadsFail (F.faults files.old) (F.faults files.new) result }
    ensures causes { CausedBy is_opening_cause result }
    ensures published { F.published files.new ≡ F.published files.old }
    ensures field { IfSome (F.published files.old)
        (λ published. IfErr (sealed_bytes (get published args.now.file))
        (λ _. F.given files.new ≤ F.given files.old + 4)) }
    ensures given { F.given files.new ≤ F.given files.old + (MODULE_LIMIT + 32) }
{
    let opened = match open_file(
        alloc,
        &args.key,
        &args.associated_data,
        files,
        args.file.as_str(),
    ) {
        Ok(opened) => opened,
        Err(refusal) => return Err(refusal),
    };
    match hex_line(alloc, opened.plaintext()) {
        Ok(line) => Ok(line),
        Err(_) => Err(plain_refusal(Cause::OutOfMemory)),
    }
}

/// Reads the module that fills the file `name`, and opens it.
fn open_file<F: Files>(
    alloc: Global,
    key: &AesKey,
    associated_data: &AssociatedData,
    files: &mut F,
    name: &str,
) -> Result<Opened, Refusal>
    ensures answer { IfSome (F.published files.old) (λ published.
        Answers result (opened_file key.now associated_data.now (get published name.now))) }
    ensures sealed { IfOk result (λ plain. IfSome (F.published files.old) (λ published. IsSomeAnd
        (get published name.now) (IsGcm key.now associated_data.now plain plaintext_limit))) }
    ensures reads { ReadsFail (F.faults files.old) (F.faults files.new) result }
    ensures causes { CausedBy is_opening_cause result }
    ensures published { F.published files.new ≡ F.published files.old }
    ensures field { IfSome (F.published files.old)
        (λ published. IfErr (sealed_bytes (get published name.now))
        (λ _. F.given files.new ≤ F.given files.old + 4)) }
    ensures given { F.given files.new ≤ F.given files.old + (MODULE_LIMIT + 32) }
{
    match read_sealed(alloc, files, name) {
        Ok(buffer) => open_buffer(key, associated_data, buffer),
        Err(refusal) => Err(refusal),
    }
}

/// Opens the module that fills the buffer, in place.
fn open_buffer(
    key: &AesKey,
    associated_data: &AssociatedData,
    mut buffer: Vec<u8>,
) -> Result<Opened, Refusal>
    ensures answer { result ≡ opened_buffer key.now associated_data.now buffer.items }
    ensures sealed { IfOk result (λ plain.
        IsGcm key.now associated_data.now plain plaintext_limit buffer.items) }
    ensures causes { CausedBy frames.is_module_cause result }
{
    let place = Place::loose();
    let data = associated_data.as_slice();
    match read_gcm(
        key,
        data,
        &place,
        0,
        MODULE_LIMIT,
        true,
        buffer.as_mut_slice(),
    ) {
        Ok(module) => Ok(Opened::new(buffer, module.length)),
        Err(refusal) => Err(refusal),
    }
}
