// Numbers as bytes, in both orders: most significant first (frame headers), least significant first (BSON). And copies of bytes.
// Every public function but `copy` and `Number::of` is total: a read counts only the bytes that are there, a write that does not fit changes nothing.
#![tactic(auto)]

ghost use Rattle.std.specs.Prelude.{◌≡◌, ℕ, ◌+◌, ◌-◌, ◌^◌, ◌%◌, ◌≤◌, ◌<◌, min, length};
ghost use Rattle.std.proofs.Math.Seq.{paste};
ghost use Rattle.std.proofs.Common.{rules};
ghost use Rattle.numbers.specs.Bytes.{part, fits_in, put_at};
ghost use Rattle.numbers.specs.Numbers.{value_le, value_be, bytes_le, bytes_be, Fits};

// The most bytes that are copied by way of an array; more go by a loop.
const MOST_APART: usize = 131072;

// A number of one width, as its bytes least significant first make it: u8, u16, u32, u64.
pub trait Number: Copy + Drop {
    ghost WIDTH: { ℕ };

    ghost value: { Self → ℕ };

    // Its bytes.
    const WIDTH: usize;

    // The number that is x. Only numbers of its width are asked of it, so that who implements this need not say what becomes of others.
    fn of(x: u64) -> Self
        requires { x < 256 ^ WIDTH }
        ensures { value result ≡ x };

    // The number that the last bytes of any x make: x itself, where it has no more. An `impl` may leave it as it is.
    #[tactic(auto, using(crate::proofs::Turns::counted))]
    fn cut(x: u64) -> Self
        ensures { value result ≡ x % 256 ^ WIDTH }
    {
        let width = Self::WIDTH;
        if width < 8 {
            return Self::of(x % 256u64.pow(width as u32));
        }
        Self::of(x)
    }

    fn wide(self) -> u64
        ensures { result ≡ value self };

    ghost short: { WIDTH ≤ 8 };
}

impl Number for u8 {
    ghost WIDTH = { 1 };

    ghost value = { λ x. x };

    const WIDTH: usize = 1;

    fn of(x: u64) -> u8 {
        x as u8
    }

    fn cut(x: u64) -> u8 {
        (x % 256) as u8
    }

    fn wide(self) -> u64 {
        u64::from(self)
    }

    ghost short = { Prim.search rules };
}

impl Number for u16 {
    ghost WIDTH = { 2 };

    ghost value = { λ x. x };

    const WIDTH: usize = 2;

    fn of(x: u64) -> u16 {
        x as u16
    }

    fn cut(x: u64) -> u16 {
        (x % 65536) as u16
    }

    fn wide(self) -> u64 {
        u64::from(self)
    }

    ghost short = { Prim.search rules };
}

impl Number for u32 {
    ghost WIDTH = { 4 };

    ghost value = { λ x. x };

    const WIDTH: usize = 4;

    fn of(x: u64) -> u32 {
        x as u32
    }

    fn cut(x: u64) -> u32 {
        (x % 4294967296) as u32
    }

    fn wide(self) -> u64 {
        u64::from(self)
    }

    ghost short = { Prim.search rules };
}

impl Number for u64 {
    ghost WIDTH = { 8 };

    ghost value = { λ x. x };

    const WIDTH: usize = 8;

    fn of(x: u64) -> u64 {
        x
    }

    fn cut(x: u64) -> u64 {
        x
    }

    fn wide(self) -> u64 {
        self
    }

    ghost short = { Prim.search rules };
}

// The number that bytes make, least significant first: from the last byte down.
fn sum_le(bytes: &[u8]) -> u64
    requires { length bytes.now ≤ 8 }
    ensures { Fits (length bytes.now) (value_le bytes.now) result }
{
    let mut sum: u64 = 0;
    for &byte in bytes.iter().rev() {
        sum = sum * 256 + u64::from(byte);
    }
    sum
}

// The number that bytes make, most significant first: from the first byte up.
fn sum_be(bytes: &[u8]) -> u64
    requires { length bytes.now ≤ 8 }
    ensures { Fits (length bytes.now) (value_be bytes.now) result }
{
    let mut sum: u64 = 0;
    for &byte in bytes {
        sum = sum * 256 + u64::from(byte);
    }
    sum
}

// Whether w bytes from at on lie inside n bytes.
#[tactic(auto, unfolding(crate::specs::Bytes::fits_in))]
fn fits(n: usize, at: usize, w: usize) -> bool
    ensures { result ≡ fits_in n at w }
{
    at <= n && w <= n - at
}

// The w bytes from at on, as far as they are there.
fn there(s: &[u8], at: usize, w: usize) -> &[u8]
    ensures { result.now ≡ part s.now at w }
{
    let start = at.min(s.len());
    let end = start + w.min(s.len().saturating_sub(at));
    &s[start..end]
}

// All w bytes are there as a rule: that way is apart, so that the compiler knows the width of its loop.
fn read_le(s: &[u8], at: usize, w: usize) -> u64
    requires { w ≤ 8 }
    ensures { Fits w (value_le (part s.now at w)) result }
{
    if fits(s.len(), at, w) {
        let end = at + w;
        return sum_le(&s[at..end]);
    }
    sum_le(there(s, at, w))
}

// The number whose bytes lie from at on, least significant first: BSON's int32 and int64, and those of a state.
pub fn le<N: Number>(s: &[u8], at: usize) -> N
    ensures { N.value result ≡ value_le (part s.now at N.WIDTH) }
{
    N::cut(read_le(s, at, N::WIDTH))
}

// Four bytes of a header. Where all are there, the compiler makes one load of the number least significant first and one instruction of its turn; most
// significant first it often goes byte by byte.
pub fn be4(s: &[u8], at: usize) -> u32
    ensures { result ≡ value_be (part s.now at 4) }
{
    if fits(s.len(), at, 4) {
        return le::<u32>(s, at).swap_bytes();
    }
    sum_be(there(s, at, 4)) as u32
}

// The bytes of x over all of out, least significant first.
fn store_le(out: &mut [u8], x: u64)
    ensures { out.new ≡ bytes_le (length out.old) x }
{
    let mut rest = x;
    for byte in out {
        *byte = (rest % 256) as u8;
        rest /= 256;
    }
}

fn write_le(out: &mut [u8], at: usize, w: usize, x: u64)
    ensures { out.new ≡ put_at out.old at w (bytes_le w x) }
{
    if fits(out.len(), at, w) {
        let end = at + w;
        store_le(&mut out[at..end], x);
    }
}

pub fn put_be4(out: &mut [u8], at: usize, x: u32)
    ensures { out.new ≡ put_at out.old at 4 (bytes_be 4 x) }
{
    write_le(out, at, 4, u64::from(x.swap_bytes()));
}

pub fn put_le<N: Number>(out: &mut [u8], at: usize, x: N)
    ensures { out.new ≡ put_at out.old at N.WIDTH (bytes_le N.WIDTH (N.value x)) }
{
    write_le(out, at, N::WIDTH, x.wide());
}

// Copies by way of an array of its own. That lies apart from both slices, so the compiler makes one move of the two copies, with no test for overlap, and
// no array is left. That both are of one length is asked here, of `copy` and of `copy_block` (blocks), as std's `copy_from_slice` asks it.
fn copy_apart(source: &[u8], target: &mut [u8])
    requires { (length source.now ≤ 131072) × (length target.old ≡ length source.now) }
    ensures { target.new ≡ source.now }
{
    let n = source.len();
    let mut between = [0u8; MOST_APART];
    between[..n].copy_from_slice(source);
    target.copy_from_slice(&between[..n]);
}

// Puts bytes over as many others.
pub fn copy(source: &[u8], target: &mut [u8])
    requires { length target.old ≡ length source.now }
    ensures { target.new ≡ source.now }
{
    if source.len() <= MOST_APART {
        copy_apart(source, target);
    } else {
        target.copy_from_slice(source);
    }
}

#[cfg(test)]
mod tests {
    use super::*;

    // Who implements `Number` writes no more than this, and `of` for the numbers that have room alone.
    #[derive(Clone, Copy, Drop)]
    struct Degrees(u16);

    impl Number for Degrees {
        ghost WIDTH = { 2 };

        ghost value = { λ d. d.0 };

        const WIDTH: usize = 2;

        fn of(x: u64) -> Degrees {
            Degrees(x as u16)
        }

        fn wide(self) -> u64 {
            u64::from(self.0)
        }

        ghost short = { Prim.search rules };
    }

    #[test]
    fn numbers_that_have_room(rt: HostRuntime) {
        assert_eq!(rt; u8::of(255), 255);
        assert_eq!(rt; u16::of(300), 300);
        assert_eq!(rt; u32::of(4294967295), 4294967295);
        assert_eq!(rt; u64::of(4294967296), 4294967296);
        assert_eq!(rt; Degrees::of(300).0, 300);
    }

    #[test]
    fn last_bytes_of_any_number(rt: HostRuntime) {
        assert_eq!(rt; u8::cut(256 + 7), 7);
        assert_eq!(rt; u16::cut(65536 + 300), 300);
        assert_eq!(rt; u32::cut(4294967296 + 1), 1);
        assert_eq!(rt; u64::cut(18446744073709551615), 18446744073709551615);
        assert_eq!(rt; Degrees::cut(65536 * 5 + 300).0, 300);
        assert_eq!(rt; le::<Degrees>(&[9, 44, 1], 1).0, 300);
    }
}
