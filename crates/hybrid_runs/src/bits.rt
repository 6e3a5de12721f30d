// A stream of bits over bytes.
ghost use Rattle.std.specs.Prelude.{◌≡◌, ◌<◌, ◌≤◌, ◌+◌, ◌-◌, ◌*◌, ◌/◌, ◌%◌, ◌^◌, [], length, IfSome, IfNone};
ghost use Rattle.hybrid_runs.specs.Hybrid as hybrid;
ghost use Rattle.hybrid_runs.specs.BitsInside.{number_in, bits_in};

/// A stream of bits, from the lowest bit of each byte on: first the `count` bits in `held`, then those of `rest`.
#[derive(Drop)]
pub struct Bits<'a> {
    held: u64,
    count: u32,
    rest: &'a [u8],
    ghost fits: { held < 2 ^ count },
    ghost small: { count ≤ 63 },
}

impl<'a> Bits<'a> {
    /// The stream of all bits of `bytes`.
    pub fn new(bytes: &'a [u8]) -> Bits<'a>
        ensures number { number_in result.held result.count result.rest.now ≡
            hybrid.le_number bytes.now }
        ensures bits { bits_in result.count result.rest.now ≡ 8 * length bytes.now }
    {
        Bits {
            held: 0,
            count: 0,
            rest: bytes,
        }
    }

    /// The next value of `width` bits (at most 32) and the bits after it, or None if fewer bits are left.
    pub fn next(self, width: u32) -> Option<(u32, Bits<'a>)>
        requires { width ≤ 32 }
        ensures there { IfSome result
            (λ next. width ≤ bits_in self.entry.count self.entry.rest.now) }
        ensures value { IfSome result (λ next. next.0 ≡
            number_in self.entry.held self.entry.count self.entry.rest.now % 2 ^ width) }
        ensures number { IfSome result (λ next. number_in next.1.held next.1.count next.1.rest.now ≡
            number_in self.entry.held self.entry.count self.entry.rest.now / 2 ^ width) }
        ensures bits { IfSome result (λ next. bits_in next.1.count next.1.rest.now ≡
            bits_in self.entry.count self.entry.rest.now - width) }
        ensures none { IfNone result (bits_in self.entry.count self.entry.rest.now < width) }
    {
        let bits = if self.count < width {
            self.refill()
        } else {
            self
        };
        if bits.count < width {
            return None;
        }
        let value = (bits.held & ((1 << width) - 1)) as u32;
        let next = Bits {
            held: bits.held >> width,
            count: bits.count - width,
            rest: bits.rest,
        };
        Some((value, next))
    }

    /// The same stream with at least 32 bits in `held`, or with all that are left.
    fn refill(self) -> Bits<'a>
        requires { self.count < 32 }
        ensures number { number_in result.held result.count result.rest.now ≡
            number_in self.entry.held self.entry.count self.entry.rest.now }
        ensures bits { bits_in result.count result.rest.now ≡
            bits_in self.entry.count self.entry.rest.now }
        ensures enough { result.count < 32 → result.rest.now ≡ [] }
    {
        let size = self.rest.len().min(4);
        let (front, rest) = self.rest.split_at(size);
        Bits {
            held: self.held + (u64::from(le_number(front)) << self.count),
            count: self.count + 8 * size as u32,
            rest,
        }
    }
}

/// The little-endian number in up to four bytes.
pub fn le_number(bytes: &[u8]) -> u32
    requires { length bytes.now ≤ 4 }
    ensures number { result ≡ hybrid.le_number bytes.now }
    ensures small { result < 2 ^ (8 * length bytes.now) }
{
    match bytes {
        [] => 0,
        [a] => u32::from(*a),
        [a, b] => u32::from(*a) + 256 * u32::from(*b),
        [a, b, c] => u32::from(*a) + 256 * (u32::from(*b) + 256 * u32::from(*c)),
        [a, b, c, d, ..] => {
            u32::from(*a) + 256 * (u32::from(*b) + 256 * (u32::from(*c) + 256 * u32::from(*d)))
        }
    }
}
