// The system's source of random bytes.
ghost use Rattle.std.specs.Prelude.{◌≡◌, None};

use crate::faults::counted;
use crate::outside::{Failed, Random};
use std::io::Read;
use std::{fs, rt};

/// The system's source of random bytes.
const DEVICE: &str = "/dev/urandom";

/// Random bytes of the system, from `/dev/urandom`. Contracts don't see which bytes come.
#[derive(Drop)]
pub struct StdRandom<R: rt::Files> {
    rt: R,
    faults: u64,
}

impl<R: rt::Files> StdRandom<R> {
    /// A source that opens the device through `rt`.
    pub fn new(rt: R) -> StdRandom<R>
        ensures { result.faults ≡ 0 }
    {
        StdRandom { rt, faults: 0 }
    }
}

impl<R: rt::Files> Random for StdRandom<R> {
    ghost to_come = { λ _. None };

    ghost faults = { λ r. r.faults };

    ghost bytes = { λ _. tt };

    fn fill(&mut self, into: &mut [u8]) -> Result<(), Failed> {
        let mut device = counted(&mut self.faults, fs::open(&self.rt, DEVICE))?;
        counted(&mut self.faults, device.read_exact(into))
    }
}
