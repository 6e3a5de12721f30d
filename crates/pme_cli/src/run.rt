// The whole program as one call over objects outside.
ghost use Rattle.std.specs.Prelude.{◌≡◌, ◌≤◌, [], IsNone, IfSome};
ghost use Rattle.command_line.specs.Commands as line;
ghost use Rattle.pme_base.specs.declared.outside.Trouble.TheVariants as trouble;
ghost use Rattle.refusal_lines.specs.RefusalText as text;
ghost use Rattle.pme_base.specs.Outside.{PutsFront, followed_by};
ghost use Rattle.pme_base.specs.Counts.{Rose};
ghost use Rattle.command_parts.specs.World.{EveryRun, world_of};
ghost use Rattle.pme_cli.specs.Guarantees.{Guarantees, RunGuarantees};
ghost use Rattle.pme_cli.specs.Outcomes.{outcome_of, number_of};

use command_line::{Command, command_of};
use command_parts::{Stop, plain_stop};
use pme_base::{Bytes, Cause, Files, Random, Refusal, Sink, Trouble, Words};
use read_commands::{footer, module, thrift};
use refusal_lines::{refusal_line, status_number};
use std::alloc::Global;

/// How a run ended.
#[derive(Drop)]
pub struct Status {
    /// The exit status: 0, or the number of the refusal's cause.
    pub number: u8,
    /// Why the command was refused; None where it succeeded.
    pub refusal: Option<Refusal>,
    /// The name of the file that the refusal is about; empty where there is none.
    pub subject: Bytes,
    /// The failure that kept the refusal's line from being written whole; None where there was none.
    pub line: Option<Trouble>,
}

/// Runs the command line `words`: parses the command, carries it out, and writes the line of a refusal to `err` as the
/// last line.
pub fn run<F: Files, N: Random, O: Sink, E: Sink>(
    alloc: Global,
    words: &Words,
    files: &mut F,
    random: &mut N,
    out: &mut O,
    err: &mut E,
) -> Status
    ensures number { result.number ≡ number_of result.refusal }
    ensures no_subject { IsNone result.refusal → result.subject ≡ [] }
    ensures quiet { IsNone result.refusal → IsNone result.line }
    ensures guarantees { let w = world_of F.published F.given F.faults N.to_come N.faults
        O.written O.faults E.written E.faults in
        RunGuarantees (line.command_of words.now)
        (w files.old random.old out.old err.old) (w files.new random.new out.new err.new)
        (outcome_of result.refusal result.subject) result.line }
    ensures every { let w = world_of F.published F.given F.faults N.to_come N.faults
        O.written O.faults E.written E.faults in
        EveryRun
        (w files.old random.old out.old err.old) (w files.new random.new out.new err.new)
        (outcome_of result.refusal result.subject) }
{
    match obey(alloc, words, files, random, out, err) {
        Ok(()) => Status {
            number: 0,
            refusal: None,
            subject: Bytes::new(alloc),
            line: None,
        },
        Err(stop) => {
            let line = put_line(alloc, &stop, err);
            let number = status_number(stop.refusal.cause);
            Status {
                number,
                refusal: Some(stop.refusal),
                subject: stop.subject,
                line,
            }
        }
    }
}

/// Parses the command and carries it out.
#[tactic(auto, using(crate::proofs::Every::every_of))]
fn obey<F: Files, N: Random, O: Sink, E: Sink>(
    alloc: Global,
    words: &Words,
    files: &mut F,
    random: &mut N,
    out: &mut O,
    err: &mut E,
) -> Result<(), Stop>
    ensures guarantees { let w = world_of F.published F.given F.faults N.to_come N.faults
        O.written O.faults E.written E.faults in
        Guarantees (line.command_of words.now) (w files.old random.old out.old err.old)
        (w files.new random.new out.new err.new) result }
    ensures every { let w = world_of F.published F.given F.faults N.to_come N.faults
        O.written O.faults E.written E.faults in
        EveryRun (w files.old random.old out.old err.old)
        (w files.new random.new out.new err.new) result }
{
    match command_of(alloc, words) {
        Ok(Some(command)) => dispatch(alloc, command, files, random, out, err),
        Ok(None) => Err(plain_stop(alloc, Cause::Usage)),
        Err(_) => Err(plain_stop(alloc, Cause::OutOfMemory)),
    }
}

/// Carries out a command.
fn dispatch<F: Files, N: Random, O: Sink, E: Sink>(
    alloc: Global,
    command: Command,
    files: &mut F,
    _random: &mut N,
    out: &mut O,
    _err: &mut E,
) -> Result<(), Stop>
    ensures guarantees { let w = world_of F.published F.given F.faults N.to_come N.faults
        O.written O.faults E.written E.faults in
        Guarantees (Some command) (w files.old _random.old out.old _err.old)
        (w files.new _random.new out.new _err.new) result }
{
    match command {
        Command::Module(args) => module(alloc, args, files, out),
        Command::Thrift(args) => thrift(alloc, args, files, out),
        Command::Footer(args) => footer(alloc, args, files, out),
    }
}

/// Writes the line of a refusal in one call. Returns the failure that kept it from being written whole.
fn put_line<E: Sink>(alloc: Global, stop: &Stop, err: &mut E) -> Option<Trouble>
    ensures whole { IsNone result → E.written err.new
        ≡ followed_by (text.refusal_line stop.now.refusal stop.now.subject) (E.written err.old) }
    ensures part { PutsFront (text.refusal_line stop.now.refusal stop.now.subject)
        (E.written err.old) (E.written err.new) }
    ensures failed { IfSome result (λ t. t ≡ trouble.Failed
        → Rose (E.faults err.old) (E.faults err.new)) }
    ensures later { E.faults err.old ≤ E.faults err.new }
{
    match refusal_line(alloc, &stop.refusal, stop.subject.as_slice()) {
        Ok(line) => match err.put(line.as_slice()) {
            Ok(()) => None,
            Err(trouble) => Some(trouble),
        },
        Err(_) => Some(Trouble::OutOfMemory),
    }
}
