// The two ends of a file: its magic, the length field and where the footer area lies.
ghost use Rattle.std.specs.Prelude.{◌≡◌, ◌+◌, ◌<◌, ◌≤◌, ◌^◌, true, length, OnOk, IfOk, IfErr, IfSome, vec_len};
ghost use Rattle.std.specs.FinMap.{get};
ghost use Rattle.pme_base.specs.Causes.{CausedBy};
ghost use Rattle.pme_base.specs.Outside.{bytes_of};
ghost use Rattle.pme_base.specs.Refusals.{is_free};
ghost use Rattle.pme_base.specs.Steps.{Answers, Quiet, ReadsFail};
ghost use Rattle.pme_base.specs.declared.refusal.Cause.TheVariants.{Truncated};
ghost use Rattle.footer_modes.specs.Causes.{is_ends_cause, IsShortEnd, IsShortRead};
ghost use Rattle.footer_modes.specs.Ends as defined;

use crate::mode::Magic;
use crate::reading::read_exactly;
use pme_base::{
    Cause, Detail, FOOTER_AREA_LIMIT, Files, OutOfMemory, Place, Refusal, buffer_of, file_size,
    plain_refusal, refusal_at,
};
use std::alloc::Global;

/// The size of the shortest file: two magics and the length field of an empty area.
const SHORTEST: u64 = 12;

/// The magic of a file, the offset of its footer area, and the length of the area in bytes.
#[derive(Clone, Copy, Debug, PartialEq, Eq, Drop)]
pub(crate) struct Ends {
    pub magic: Magic,
    pub data_end: u64,
    pub area: usize,
}

/// Reads the ends of the file `name`.
pub(crate) fn file_ends<F: Files>(files: &mut F, name: &str) -> Result<Ends, Refusal>
    ensures answer { IfSome (F.published files.old)
        (λ published. Answers result (defined.file_ends (get published name.now))) }
    ensures inside { IfOk result (λ ends. IfSome (F.published files.old)
        (λ published. defined.IsInside ends (bytes_of published name.now))) }
    ensures small { IfOk result (λ ends. ends.area ≤ FOOTER_AREA_LIMIT) }
    ensures offset { IfOk result (λ ends. ends.data_end + ends.area + 8 < 2 ^ 64) }
    ensures short { IfErr result (λ refusal. refusal.cause ≡ Truncated → IsShortEnd refusal) }
    ensures published { F.published files.new ≡ F.published files.old }
    ensures pending { OnOk result (F.pending files.new ≡ F.pending files.old) }
    ensures given { F.given files.new ≤ F.given files.old + 12 }
    ensures reads { ReadsFail (F.faults files.old) (F.faults files.new) result }
    ensures causes { CausedBy is_ends_cause result }
{
    match file_size(files, name) {
        Ok(size) => ends_at(files, name, size),
        Err(refusal) => Err(refusal),
    }
}

/// Reads the ends of an existing file of `size` bytes.
fn ends_at<F: Files>(files: &mut F, name: &str, size: u64) -> Result<Ends, Refusal>
    ensures answer { IfSome (F.published files.old) (λ published. size
        ≡ length (bytes_of published name.now)
        → Answers result (defined.ends_of (bytes_of published name.now))) }
    ensures inside { IfOk result (λ ends. ends.data_end + ends.area + 8 ≡ size) }
    ensures small { IfOk result (λ ends. ends.area ≤ FOOTER_AREA_LIMIT) }
    ensures short { IfErr result (λ refusal. refusal.cause ≡ Truncated → IsShortEnd refusal) }
    ensures published { F.published files.new ≡ F.published files.old }
    ensures pending { OnOk result (F.pending files.new ≡ F.pending files.old) }
    ensures given { F.given files.new ≤ F.given files.old + 12 }
    ensures reads { ReadsFail (F.faults files.old) (F.faults files.new) result }
    ensures causes { CausedBy is_ends_cause result }
{
    if size < SHORTEST {
        let detail = Detail::Pair(SHORTEST, size);
        return Err(refusal_at(Cause::Truncated, Place::file(), 0, detail));
    }
    let mut front = [0; 4];
    read_exactly(files, name, Place::file(), 0, &mut front)?;
    let mut back = [0; 8];
    read_exactly(files, name, Place::file(), size - 8, &mut back)?;
    ends_within(size, &front, &back)
}

/// The ends of a file of `size` bytes, by its first four bytes and its last eight.
fn ends_within(size: u64, front: &[u8; 4], back: &[u8; 8]) -> Result<Ends, Refusal>
    requires { 12 ≤ size }
    ensures answer { result ≡ defined.ends_within size front.now back.now }
    ensures inside { IfOk result (λ ends. ends.data_end + ends.area + 8 ≡ size) }
    ensures small { IfOk result (λ ends. ends.area ≤ FOOTER_AREA_LIMIT) }
    ensures whole { IfErr result (λ refusal. refusal.cause ≡ Truncated → ⊥) }
    ensures quiet { Quiet result }
    ensures causes { CausedBy is_ends_cause result }
{
    let magic = known_magic(size - 4, &back[4..])?;
    check_first_magic(magic, front)?;
    let [b0, b1, b2, b3, _, _, _, _] = *back;
    area_at(size, magic, u32::from_le_bytes([b0, b1, b2, b3]))
}

/// Finds the magic by the last four bytes of a file, which stand at the offset `at`.
fn known_magic(at: u64, bytes: &[u8]) -> Result<Magic, Refusal>
    ensures answer { result ≡ defined.known_magic at bytes.now }
    ensures whole { IfErr result (λ refusal. refusal.cause ≡ Truncated → ⊥) }
    ensures quiet { Quiet result }
    ensures causes { CausedBy is_ends_cause result }
{
    if bytes == b"PARE".as_slice() {
        return Ok(Magic::Pare);
    }
    if bytes == b"PAR1".as_slice() {
        return Ok(Magic::Par1);
    }
    Err(bad_magic(at))
}

/// Checks that a file begins with the magic that it ends with.
fn check_first_magic(magic: Magic, front: &[u8]) -> Result<(), Refusal>
    ensures answer { result ≡ defined.check_first_magic magic front.now }
    ensures whole { IfErr result (λ refusal. refusal.cause ≡ Truncated → ⊥) }
    ensures quiet { Quiet result }
    ensures causes { CausedBy is_ends_cause result }
{
    let same = match magic {
        Magic::Pare => front == b"PARE".as_slice(),
        Magic::Par1 => front == b"PAR1".as_slice(),
    };
    if same { Ok(()) } else { Err(bad_magic(0)) }
}

fn bad_magic(at: u64) -> Refusal
    ensures { result ≡ defined.bad_magic at }
{
    refusal_at(Cause::BadMagic, Place::file(), at, Detail::Nothing)
}

/// Places the footer area of `count` bytes right before the length field of a file of `size` bytes.
fn area_at(size: u64, magic: Magic, count: u32) -> Result<Ends, Refusal>
    requires { 12 ≤ size }
    ensures answer { result ≡ defined.area_at size magic count }
    ensures inside { IfOk result (λ ends. ends.data_end + ends.area + 8 ≡ size) }
    ensures small { IfOk result (λ ends. ends.area ≤ FOOTER_AREA_LIMIT) }
    ensures whole { IfErr result (λ refusal. refusal.cause ≡ Truncated → ⊥) }
    ensures quiet { Quiet result }
    ensures causes { CausedBy is_ends_cause result }
{
    let area = u64::from(count);
    if area > size - SHORTEST {
        let detail = Detail::Pair(area, size - SHORTEST);
        return Err(refusal_at(Cause::BadFooterLength, Place::footer(), size - 8, detail));
    }
    if area > FOOTER_AREA_LIMIT as u64 {
        let detail = Detail::Pair(area, FOOTER_AREA_LIMIT as u64);
        return Err(refusal_at(Cause::TooLarge, Place::footer(), size - 8, detail));
    }
    Ok(Ends {
        magic,
        data_end: size - 8 - area,
        area: area as usize,
    })
}

/// Reads the footer area. A file that gives fewer bytes of it than its size promised is Truncated at the footer.
pub(crate) fn area_of<F: Files>(
    alloc: Global,
    files: &mut F,
    name: &str,
    ends: &Ends,
) -> Result<Vec<u8>, Refusal>
    requires small { ends.now.area ≤ FOOTER_AREA_LIMIT }
    ensures answered { IfOk result (λ area. IfSome (F.published files.old)
        (λ published. defined.IsInside ends.now (bytes_of published name.now)
        → area.items ≡ defined.area_of ends.now (bytes_of published name.now))) }
    ensures size { IfOk result (λ area. vec_len area ≡ ends.now.area) }
    ensures short { IfErr result (λ refusal. refusal.cause ≡ Truncated
        → IsShortRead defined.footer_place ends.now.data_end ends.now.area refusal) }
    ensures free { IfErr result (λ refusal. IfSome (F.published files.old)
        (λ published. defined.IsInside ends.now (bytes_of published name.now)
        → is_free refusal.cause ≡ true)) }
    ensures published { F.published files.new ≡ F.published files.old }
    ensures pending { OnOk result (F.pending files.new ≡ F.pending files.old) }
    ensures given { F.given files.new ≤ F.given files.old + ends.now.area }
    ensures reads { ReadsFail (F.faults files.old) (F.faults files.new) result }
    ensures causes { CausedBy is_ends_cause result }
{
    let mut area = match buffer_of(alloc, ends.area) {
        Ok(area) => area,
        Err(OutOfMemory) => return Err(plain_refusal(Cause::OutOfMemory)),
    };
    let place = Place::footer();
    match read_exactly(files, name, place, ends.data_end, area.as_mut_slice()) {
        Ok(()) => Ok(area),
        Err(refusal) => Err(refusal),
    }
}
