// A cursor over the unread bytes: reading bytes, varints, integers, sizes, doubles, binaries and booleans.
ghost use Rattle.std.specs.Prelude.{◌≡◌, ◌<◌, ◌≤◌, length, OnOk, IfOk};
ghost use Rattle.thrift_compact.specs.Answers.{Gives, Enters, refusal_of};
ghost use Rattle.thrift_compact.specs.Reading.{byte_at, bytes_at, varint_at, size_at, int8_at, int16_at, int32_at, int64_at, binary_at, truth_at, zigzag as zigzag_of, signed_byte as signed_byte_of};

use crate::refusal::ThriftRefusal;
use pme_base::{OutOfMemory, ThriftFault};
use std::alloc::{AllocError, AllocFailed};
use std::marker::Model;

/// Why reading stopped: a fault, with the number of bytes from its place to the end, or a failed allocation.
#[derive(Clone, Copy, Drop)]
pub(crate) enum Stop {
    Fault(ThriftFault, usize),
    Memory,
}

impl Stop {
    /// Converts to the public error, which has the fault's offset. `size` is the length of the whole input in bytes.
    pub(crate) fn refusal(self, size: usize) -> ThriftRefusal
        ensures { result ≡ refusal_of size self }
    {
        match self {
            Stop::Fault(why, left) => ThriftRefusal::Bad {
                at: size.saturating_sub(left) as u64,
                why,
            },
            Stop::Memory => ThriftRefusal::OutOfMemory,
        }
    }
}

impl From<AllocError> for Stop {
    ghost use Rattle.thrift_compact.specs.declared.cursor.Stop.TheVariants as stops;

    ghost from_gives = { λ _ stop. stop ≡ stops.Memory };

    fn from(_error: AllocError) -> Stop {
        Stop::Memory
    }
}

impl<T: Drop> From<AllocFailed<T>> for Stop {
    ghost use Rattle.thrift_compact.specs.declared.cursor.Stop.TheVariants as stops;

    ghost from_gives = { λ _ stop. stop ≡ stops.Memory };

    fn from(_error: AllocFailed<T>) -> Stop {
        Stop::Memory
    }
}

impl From<OutOfMemory> for Stop {
    ghost use Rattle.thrift_compact.specs.declared.cursor.Stop.TheVariants as stops;

    ghost from_gives = { λ _ stop. stop ≡ stops.Memory };

    fn from(_error: OutOfMemory) -> Stop {
        Stop::Memory
    }
}

/// The unread bytes. A contract sees a cursor as the list of these bytes.
#[derive(Drop)]
pub(crate) struct Cursor<'a> {
    rest: &'a [u8],
}

impl<'a> Model for Cursor<'a> {
    ghost use Rattle.std.specs.Prelude.{List, ℕ};

    ghost Value = { List ℕ };

    ghost view = { λ c. c.rest.now };
}

impl<'a> Cursor<'a> {
    pub(crate) fn new(bytes: &'a [u8]) -> Cursor<'a>
        ensures { result ≡ bytes.now }
    {
        Cursor { rest: bytes }
    }

    /// The number of unread bytes.
    pub(crate) fn left(&self) -> usize
        ensures { result ≡ length self.now }
    {
        self.rest.len()
    }

    /// Enters a struct, list, set or map where `depth_left` levels of nesting are left, and returns the number that is left
    /// inside it. If `depth_left` is 0 it refuses: as Depth, or as End if no byte is left.
    pub(crate) fn enter(&self, depth_left: u32) -> Result<u32, Stop>
        ensures { Enters result depth_left self.now }
    {
        if depth_left > 0 {
            Ok(depth_left - 1)
        } else if self.rest.is_empty() {
            Err(Stop::Fault(ThriftFault::End, 0))
        } else {
            Err(Stop::Fault(ThriftFault::Depth, self.rest.len()))
        }
    }

    /// Reads one byte.
    #[inline(always)]
    pub(crate) fn byte(&mut self) -> Result<u8, Stop>
        ensures value { Gives (λ b. b) result self.new (byte_at self.old) }
        ensures shorter { OnOk result (length self.new < length self.old) }
    {
        match self.rest.split_first() {
            Some((byte, rest)) => {
                self.rest = rest;
                Ok(*byte)
            }
            None => Err(Stop::Fault(ThriftFault::End, 0)),
        }
    }

    /// Reads `count` bytes, as a slice of the input.
    pub(crate) fn bytes(&mut self, count: usize) -> Result<&'a [u8], Stop>
        ensures value { Gives (λ bytes. bytes.now) result self.new (bytes_at count self.old) }
        ensures shorter { OnOk result (length self.new ≤ length self.old) }
    {
        if self.rest.len() < count {
            return Err(Stop::Fault(ThriftFault::End, 0));
        }
        let (front, rest) = self.rest.split_at(count);
        self.rest = rest;
        Ok(front)
    }

    /// Reads a varint: seven bits per byte, least significant first, at most ten bytes and 64 bits.
    #[inline(always)]
    #[tactic(auto, unfolding(crate::specs::Reading::varint_within))]
    pub(crate) fn varint(&mut self) -> Result<u64, Stop>
        ensures value { Gives (λ n. n) result self.new (varint_at self.old) }
        ensures shorter { OnOk result (length self.new < length self.old) }
    {
        match self.rest.split_first() {
            Some((byte, rest)) if *byte < 128 => {
                self.rest = rest;
                Ok(*byte as u64)
            }
            _ => self.long_varint(),
        }
    }

    // Reads a varint byte by byte.
    fn long_varint(&mut self) -> Result<u64, Stop>
        ensures value { Gives (λ n. n) result self.new (varint_at self.old) }
        ensures shorter { OnOk result (length self.new < length self.old) }
    {
        let start = self.rest.len();
        let mut value: u64 = 0;
        let mut scale: u64 = 1;
        for _turn in 0..9u32 {
            let byte = self.byte()?;
            if byte < 128 {
                return Ok(value + byte as u64 * scale);
            }
            value += (byte as u64 - 128) * scale;
            scale *= 128;
        }
        let last = self.byte()?;
        if last < 2 {
            Ok(value + last as u64 * scale)
        } else {
            Err(Stop::Fault(ThriftFault::Varint, start))
        }
    }

    /// Reads a size or a length; Range where it is 2^31 or more.
    #[inline]
    pub(crate) fn size(&mut self) -> Result<u32, Stop>
        ensures value { Gives (λ n. n) result self.new (size_at self.old) }
        ensures shorter { OnOk result (length self.new < length self.old) }
        ensures small { IfOk result (λ n. n < 2147483648) }
    {
        let start = self.rest.len();
        let size = self.varint()?;
        if size < 2_147_483_648 {
            Ok(size as u32)
        } else {
            Err(Stop::Fault(ThriftFault::Range, start))
        }
    }

    /// Reads a 16-bit integer as a zigzag varint; Range where it has more bits.
    pub(crate) fn int16(&mut self) -> Result<i16, Stop>
        ensures value { Gives (λ n. n) result self.new (int16_at self.old) }
        ensures shorter { OnOk result (length self.new < length self.old) }
    {
        let start = self.rest.len();
        let number = self.varint()?;
        if number < 65_536 {
            Ok(zigzag_decode(number) as i16)
        } else {
            Err(Stop::Fault(ThriftFault::Range, start))
        }
    }

    /// Reads a 32-bit integer as a zigzag varint; Range where it has more bits.
    pub(crate) fn int32(&mut self) -> Result<i32, Stop>
        ensures value { Gives (λ n. n) result self.new (int32_at self.old) }
        ensures shorter { OnOk result (length self.new < length self.old) }
    {
        let start = self.rest.len();
        let number = self.varint()?;
        if number < 4_294_967_296 {
            Ok(zigzag_decode(number) as i32)
        } else {
            Err(Stop::Fault(ThriftFault::Range, start))
        }
    }

    /// Reads a 64-bit integer as a zigzag varint.
    pub(crate) fn int64(&mut self) -> Result<i64, Stop>
        ensures value { Gives (λ n. n) result self.new (int64_at self.old) }
        ensures shorter { OnOk result (length self.new < length self.old) }
    {
        let number = self.varint()?;
        Ok(zigzag_decode(number))
    }

    /// Reads an 8-bit integer, one byte in two's complement.
    pub(crate) fn int8(&mut self) -> Result<i8, Stop>
        ensures value { Gives (λ n. n) result self.new (int8_at self.old) }
        ensures shorter { OnOk result (length self.new < length self.old) }
    {
        let byte = self.byte()?;
        Ok(signed_byte(byte))
    }

    /// Reads the 8 bytes of a double.
    pub(crate) fn double(&mut self) -> Result<[u8; 8], Stop>
        ensures value { Gives (λ bytes. bytes) result self.new (bytes_at 8 self.old) }
        ensures shorter { OnOk result (length self.new < length self.old) }
    {
        match self.rest {
            [a, b, c, d, e, f, g, h, rest @ ..] => {
                self.rest = rest;
                Ok([*a, *b, *c, *d, *e, *f, *g, *h])
            }
            _ => Err(Stop::Fault(ThriftFault::End, 0)),
        }
    }

    /// Reads a binary, which is a length and its bytes. The result is a slice of the input.
    pub(crate) fn binary(&mut self) -> Result<&'a [u8], Stop>
        ensures value { Gives (λ bytes. bytes.now) result self.new (binary_at self.old) }
        ensures shorter { OnOk result (length self.new < length self.old) }
    {
        let size = self.size()?;
        self.bytes(size as usize)
    }

    /// Reads a boolean of a list, set or map: the byte 1 is true, 0 and 2 are false, and others are WrongType.
    #[inline]
    pub(crate) fn truth(&mut self) -> Result<bool, Stop>
        ensures value { Gives (λ truth. truth) result self.new (truth_at self.old) }
        ensures shorter { OnOk result (length self.new < length self.old) }
    {
        let start = self.rest.len();
        let byte = self.byte()?;
        if byte < 3 {
            Ok(byte == 1)
        } else {
            Err(Stop::Fault(ThriftFault::WrongType, start))
        }
    }
}

// Decodes a zigzag number: 0, 1, 2, 3 stand for 0, -1, 1, -2.
fn zigzag_decode(number: u64) -> i64
    ensures { result ≡ zigzag_of number }
{
    let half = (number / 2) as i64;
    if number % 2 == 0 { half } else { -1 - half }
}

// Decodes a byte in two's complement.
fn signed_byte(byte: u8) -> i8
    ensures { result ≡ signed_byte_of byte }
{
    if byte < 128 {
        byte as i8
    } else {
        (byte as i16 - 256) as i8
    }
}
