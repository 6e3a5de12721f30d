// The command `footer`.
ghost use Rattle.std.specs.Prelude.{◌≡◌, ◌≤◌, ◌+◌, length, IfSome, IfErr};
ghost use Rattle.std.specs.FinMap.{get};
ghost use Rattle.pme_base.specs.Causes.{CausedBy};
ghost use Rattle.pme_base.specs.Outside.{bytes_of};
ghost use Rattle.pme_base.specs.Steps.{Answers, ReadsFail};
ghost use Rattle.command_parts.specs.SmallFile.{small_bytes};
ghost use Rattle.command_parts.specs.KeysInput.{loaded_keys};
ghost use Rattle.command_parts.specs.Stops.{StopsAbout};
ghost use Rattle.command_parts.specs.TextCommand.{AnswersText, GivesText, StoppedBy};
ghost use Rattle.command_parts.specs.World.{RandomState, SinkState, StopsReading, world_with};
ghost use Rattle.read_commands.specs.FooterCommand.{FooterGuarantees, IsAboutOneOf, tail_with, text_with, is_id_tail_cause, is_footer_cause};
ghost use Rattle.read_commands.specs.FooterCommand as defined;

use crate::tail_text::tail_text;
use command_line::{AadPrefix, FooterArgs};
use command_parts::{Stop, about, load_keys, print_text, stop_of};
use footer_modes::{ReadOptions, Tail, read_tail};
use key_rights::IdKeys;
use pme_base::{
    Bytes, Cause, FOOTER_AREA_LIMIT, Files, MODULE_LIMIT, Refusal, SMALL_FILE_LIMIT, Sink,
    plain_refusal,
};
use std::alloc::Global;

/// Loads the keys of a keys file, reads the footer of a Parquet file with them, and prints the footer's mode, the
/// algorithm, the columns and the numbers of row groups and rows.
pub fn footer<F: Files, O: Sink>(
    alloc: Global,
    args: FooterArgs,
    files: &mut F,
    out: &mut O,
) -> Result<(), Stop>
    ensures guarantees { (draws : RandomState) (err : SinkState)
        → let w = world_with draws err F.published F.given F.faults O.written O.faults in FooterGuarantees args (w files.old out.old) (w files.new out.new) result }
{
    let text = footer_text(alloc, args, files);
    print_text(alloc, text, out)
}

/// The text that the command prints. The data file isn't read before the keys are loaded.
#[tactic(auto, using(crate::proofs::Tails::tail_named, crate::proofs::Tails::tail_ends))]
fn footer_text<F: Files>(alloc: Global, args: FooterArgs, files: &mut F) -> Result<Bytes, Stop>
    ensures gives { GivesText result (defined.footer_text args) (F.published files.old) }
    ensures reads { StopsReading (F.faults files.old) (F.faults files.new) result }
    ensures causes { StoppedBy is_footer_cause result }
    ensures named { IfErr result (IsAboutOneOf args) }
    ensures subject { StopsAbout result }
    ensures published { F.published files.new ≡ F.published files.old }
    ensures unread { IfSome (F.published files.old)
        (λ published. IfErr (small_bytes (get published args.keys))
        (λ _. F.given files.new ≡ F.given files.old)) }
    ensures keys { IfSome (F.published files.old)
        (λ published. IfErr (loaded_keys (get published args.keys))
        (λ _. F.given files.new ≤ F.given files.old + length (bytes_of published args.keys))) }
    ensures given { F.given files.new
        ≤ F.given files.old
        + (SMALL_FILE_LIMIT + FOOTER_AREA_LIMIT + 64) }
{
    let FooterArgs {
        file,
        keys,
        prefix,
        gcm_only,
    } = args;
    let loaded = match load_keys(alloc, files, keys.as_str()) {
        Ok(loaded) => loaded,
        Err(refusal) => return Err(stop_of(alloc, refusal, keys)),
    };
    let text = text_with(alloc, loaded, &prefix, gcm_only, files, file.as_str());
    about(alloc, text, file)
}

/// Reads the tail of the file `name` with these keys, and returns its text.
fn text_with<F: Files>(
    alloc: Global,
    keys: IdKeys,
    prefix: &Option<AadPrefix>,
    gcm_only: bool,
    files: &mut F,
    name: &str,
) -> Result<Bytes, Refusal>
    ensures answer { AnswersText result
        (λ files. text_with keys prefix.now gcm_only (get files name.now)) (F.published files.old) }
    ensures reads { ReadsFail (F.faults files.old) (F.faults files.new) result }
    ensures causes { CausedBy is_id_tail_cause result }
    ensures published { F.published files.new ≡ F.published files.old }
    ensures given { F.given files.new ≤ F.given files.old + (FOOTER_AREA_LIMIT + 64) }
{
    let tail = match tail_with(alloc, keys, prefix, gcm_only, files, name) {
        Ok(tail) => tail,
        Err(refusal) => return Err(refusal),
    };
    match tail_text(alloc, &tail, prefix) {
        Ok(text) => Ok(text),
        Err(_) => Err(plain_refusal(Cause::OutOfMemory)),
    }
}

/// Reads the tail of the file `name` with these keys.
fn tail_with<F: Files>(
    alloc: Global,
    keys: IdKeys,
    prefix: &Option<AadPrefix>,
    gcm_only: bool,
    files: &mut F,
    name: &str,
) -> Result<Tail, Refusal>
    ensures answer { IfSome (F.published files.old) (λ published.
        Answers result (tail_with keys prefix.now gcm_only (get published name.now))) }
    ensures reads { ReadsFail (F.faults files.old) (F.faults files.new) result }
    ensures causes { CausedBy is_id_tail_cause result }
    ensures published { F.published files.new ≡ F.published files.old }
    ensures given { F.given files.new ≤ F.given files.old + (FOOTER_AREA_LIMIT + 64) }
{
    let mut finder = keys;
    let options = ReadOptions {
        gcm_only,
        allow_plain: false,
        module_limit: MODULE_LIMIT,
    };
    match prefix {
        Some(prefix) => {
            let supplied = Some(prefix.as_slice());
            read_tail(alloc, files, name, supplied, &mut finder, &options)
        }
        None => read_tail(alloc, files, name, None, &mut finder, &options),
    }
}
