//! Copies between slices of different lengths.
ghost use Rattle.std.specs.Prelude.{◌≡◌, ◌≤◌, ◌+◌, ◌-◌, ◌++◌, length, take, drop, min};

/// Copies the front of `from` to the front of `into`: at most `most` bytes, and as many as both have.
/// Answers how many it copied.
pub(crate) fn copy_front(from: &[u8], into: &mut [u8], most: usize) -> usize
    ensures count { result ≡ min (min most (length into.old)) (length from.now) }
    ensures copied { into.new ≡ take result from.now ++ drop result into.old }
{
    let n = most.min(into.len()).min(from.len());
    into[..n].copy_from_slice(&from[..n]);
    n
}

/// Copies the front of `from` into `into` from `at` on: at most `most` bytes, and as many as there is room for.
/// Answers how many it copied.
pub(crate) fn copy_behind(from: &[u8], into: &mut [u8], at: usize, most: usize) -> usize
    requires { at ≤ length into.old }
    ensures count { result ≡ min (min most (length from.now)) (length into.old - at) }
    ensures copied { take (at + result) into.new ≡ take at into.old ++ take result from.now }
{
    copy_front(from, &mut into[at..], most)
}
