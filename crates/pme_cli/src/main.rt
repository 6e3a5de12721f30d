//! The program `pme`: connects `run` to the command line, the file system and the standard streams.
#![tactic(auto)]

mod run;
#[cfg(test)]
mod tests;

use pme_base::{StdFiles, StdRandom, StdSink, Words};
use std::alloc::Global;
use std::env;
use std::io::ErrorKind;
use std::process::ExitCode;

/// The exit status of OutOfMemory.
const OUT_OF_MEMORY: u8 = 70;

/// The words after the program's name; None where an allocation failed. Arguments that aren't UTF-8 give an empty list
/// of words, which is refused as Usage.
fn words_of(rt: &HostRuntime, alloc: Global) -> Option<Words> {
    let mut words = Words::new(alloc);
    let args = match env::args(rt) {
        Ok(args) => args,
        Err(e) if e.kind() == ErrorKind::OutOfMemory => return None,
        Err(_) => return Some(words),
    };
    for word in args.skip(1) {
        if words.push(word.as_str()).is_err() {
            return None;
        }
    }
    Some(words)
}

fn main(rt: HostRuntime) -> ExitCode {
    let alloc = rt.alloc();
    let Some(words) = words_of(&rt, alloc) else {
        return ExitCode::from(OUT_OF_MEMORY);
    };
    let mut files = StdFiles::new(alloc, rt);
    let mut random = StdRandom::new(rt);
    let mut out = StdSink::new(rt.stdout());
    let mut err = StdSink::new(rt.stderr());
    let status = run::run(alloc, &words, &mut files, &mut random, &mut out, &mut err);
    ExitCode::from(status.number)
}
