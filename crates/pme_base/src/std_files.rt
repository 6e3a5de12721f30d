// The files of the system.
ghost use Rattle.std.specs.Prelude.{◌≡◌, ◌≤◌, length, None, IfOk, OnErr};
ghost use Rattle.pme_base.specs.Outside.{HasCause};
ghost use Rattle.pme_base.specs.Counts.{Rose};

use crate::faults::counted;
use crate::outside::{Files, Trouble};
use crate::text::Text;
use std::alloc::Global;
use std::fs::OpenFile;
use std::io::{ErrorKind, Read, Seek, SeekFrom, Write};
use std::{fs, io, rt};

/// The file in the current folder that holds the pending bytes.
const PENDING: &str = "pme-pending.tmp";

/// No file of the system reaches this offset.
const PAST_EVERY_END: u64 = 1 << 63;

/// The files of the system, by a path from the current folder. Contracts don't see their contents.
///
/// Pending bytes are written to the file `pme-pending.tmp`, which `publish` syncs and then renames.
#[derive(Drop)]
pub struct StdFiles<R: rt::Files> {
    alloc: Global,
    rt: R,
    pending: Option<R::File>,
    last: Option<Opened<R::File>>,
    given: u64,
    faults: u64,
}

/// The file that was read last. It stays open, so that many small reads of one file open it once.
#[derive(Drop)]
struct Opened<F> {
    name: Text,
    file: F,
}

impl<R: rt::Files + Drop> StdFiles<R> {
    /// The files that `rt` gives access to.
    pub fn new(alloc: Global, rt: R) -> StdFiles<R>
        ensures given { result.given ≡ 0 }
        ensures faults { result.faults ≡ 0 }
    {
        StdFiles {
            alloc,
            rt,
            pending: None,
            last: None,
            given: 0,
            faults: 0,
        }
    }

    /// Opens the file `name` for reading; None where there is no such file.
    fn opened(&mut self, name: &str) -> Result<Option<Opened<R::File>>, Trouble>
        ensures given { self.new.given ≡ self.old.given }
        ensures cause { HasCause self.old.faults self.new.faults result }
    {
        if let Some(opened) = self.last.take() {
            if opened.name.as_str() == name {
                return Ok(Some(opened));
            }
        }
        let found = match fs::open(&self.rt, name) {
            Err(error) if error.kind() == ErrorKind::NotFound => return Ok(None),
            found => found,
        };
        let file = counted(&mut self.faults, found)?;
        let name = Text::copy_of(self.alloc, name)?;
        Ok(Some(Opened { name, file }))
    }

    /// Takes the file of the pending bytes, and creates it if there is none.
    fn take_pending(&mut self) -> Result<R::File, Trouble>
        ensures given { self.new.given ≡ self.old.given }
        ensures cause { HasCause self.old.faults self.new.faults result }
    {
        if let Some(file) = self.pending.take() {
            return Ok(file);
        }
        let file = counted(&mut self.faults, fs::create(&self.rt, PENDING))?;
        Ok(file)
    }
}

/// Reads once from offset `at`. A read that a signal interrupts is tried again.
fn read_from<F: Read + Seek>(file: &mut F, at: u64, into: &mut [u8]) -> io::Result<usize>
    ensures { IfOk result (λ count. count ≤ length into.new) }
{
    if at >= PAST_EVERY_END {
        return Ok(0);
    }
    file.seek(SeekFrom::Start(at))?;
    for _ in 0..u64::MAX {
        match file.read(into) {
            Err(error) if error.kind() == ErrorKind::Interrupted => {}
            answer => return answer,
        }
    }
    Err(io::Error::from(ErrorKind::Interrupted))
}

impl<R: rt::Files + Drop> Files for StdFiles<R> {
    ghost published = { λ _. None };

    ghost pending = { λ _. None };

    ghost given = { λ f. f.given };

    ghost faults = { λ f. f.faults };

    ghost bytes = { λ _. tt };

    ghost pending_bytes = { λ _. tt };

    fn size(&mut self, name: &str) -> Result<Option<u64>, Trouble> {
        let found = match fs::metadata(&self.rt, name) {
            Err(error) if error.kind() == ErrorKind::NotFound => return Ok(None),
            found => found,
        };
        let found = counted(&mut self.faults, found)?;
        Ok(if found.is_dir() {
            None
        } else {
            Some(found.len())
        })
    }

    fn read_at(&mut self, name: &str, at: u64, into: &mut [u8]) -> Result<usize, Trouble> {
        let count = match self.opened(name)? {
            None => 0,
            Some(mut opened) => {
                let answer = read_from(&mut opened.file, at, into);
                let count = counted(&mut self.faults, answer)?;
                self.last = Some(opened);
                count
            }
        };
        self.given = self.given.saturating_add(count as u64);
        Ok(count)
    }

    fn begin(&mut self) -> Result<(), Trouble> {
        self.pending = None;
        let file = self.take_pending()?;
        self.pending = Some(file);
        Ok(())
    }

    fn append(&mut self, bytes: &[u8]) -> Result<(), Trouble> {
        let mut file = self.take_pending()?;
        counted(&mut self.faults, file.write_all(bytes))?;
        self.pending = Some(file);
        Ok(())
    }

    fn publish(&mut self, name: &str) -> Result<(), Trouble> {
        // Closed first: `name` may be the open file, which the rename replaces.
        self.last = None;
        let file = self.take_pending()?;
        counted(&mut self.faults, file.sync_all())?;
        counted(&mut self.faults, fs::rename(&self.rt, PENDING, name))?;
        Ok(())
    }
}
