//! Arrays within a slice of bytes.

ghost use Rattle.std.specs.Prelude.{◌≡◌, ℕ, ◌+◌, ◌<◌, ◌≤◌, length, slice_index};
ghost use Rattle.std.specs.List.{between};

/// The `N` bytes from `at` on, where they lie.
pub(crate) fn array_at<const N: usize>(bytes: &[u8], at: usize) -> &[u8; N]
    requires within { at + N ≤ length bytes.now }
    ensures part { result.now ≡ between at (at + N) bytes.now }
    ensures each { (k : ℕ) → k < N → slice_index result.now k ≡ slice_index bytes.now (at + k) }
{
    bytes[at..].first_chunk().unwrap()
}
