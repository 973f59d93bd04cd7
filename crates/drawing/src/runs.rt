// Equal bytes in a row.
ghost use Rattle.std.specs.Prelude.{◌≡◌, ◌≤◌, ◌<◌, length};
ghost use Rattle.drawing.specs.Runs.{last_alike};

// The last place of those from `at` on that hold what `at` holds.
pub fn last_alike(bytes: &[u8], at: usize) -> usize
    requires { at < length bytes.now }
    ensures place { result ≡ last_alike bytes.now at }
    ensures inside { (at ≤ result)
        × (result < length bytes.now) }
{
    let other = basics::first_in(at, bytes.len() - at, |i| bytes[i] != bytes[at]);
    other - 1
}
