// What all layers use and none of them is about: a refusal, a length written, and bytes and parts of a slice.
#![tactic(auto)]

ghost use Rattle.std.specs.Prelude.{◌≡◌, ◌<◌, ◌≤◌, ◌++◌, length, min, get_or, take, drop};

mod refusal;
mod scan;

pub use refusal::{NoReason, Reason, Refusal};
pub use scan::{any_below, first_in};

// The smaller of two numbers.
pub fn least_of(a: usize, b: usize) -> usize
    ensures { result ≡ min a b }
{
    a.min(b)
}

// The byte at i, or 0 past the end.
pub fn byte_at(bytes: &[u8], i: usize) -> usize
    ensures value { result ≡ get_or bytes.now i 0 }
    ensures small { result < 256 }
{
    if i < bytes.len() {
        return bytes[i] as usize;
    }
    0
}

// The `count` bytes from a place on, as far as they are there.
pub fn part(bytes: &[u8], from: usize, count: usize) -> &[u8]
    ensures { result.now ≡ take count (drop from bytes.now) }
{
    let start = least_of(from, bytes.len());
    let size = least_of(count, bytes.len() - start);
    &bytes[start..start + size]
}

// Writes the bytes into the first places of an area that has room for them; the bytes behind keep their contents.
pub fn copy(bytes: &[u8], area: &mut [u8])
    requires { length bytes.now ≤ length area.old }
    ensures { area.new ≡ bytes.now ++ drop (length bytes.now) area.old }
{
    area[..bytes.len()].copy_from_slice(bytes);
}
