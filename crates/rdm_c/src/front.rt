//! Bytes at the front of an array of C's.

ghost use Rattle.std.specs.Prelude.{◌≡◌, ◌≤◌, length, take};

/// Writes these bytes to the front of an array, if they fit, and says how many they are.
pub(crate) fn write_front<const N: usize>(bytes: &[u8], array: &mut [u8; N]) -> usize
    requires { length bytes.now ≤ N }
    ensures front { take result array.new ≡ bytes.now }
    ensures count { result ≡ length bytes.now }
{
    array[..bytes.len()].copy_from_slice(bytes);
    bytes.len()
}
