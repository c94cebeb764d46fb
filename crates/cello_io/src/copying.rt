//! Copies of bytes.
ghost use Rattle.std.specs.Prelude.{◌≡◌, length, take, min};

// Copies as many bytes as both have from the front of one to the front of the other.
pub(crate) fn copy_front(from: &[u8], to: &mut [u8]) -> usize
    ensures count { result ≡ min (length from.now) (length to.old) }
    ensures copied { take result to.new ≡ take result from.now }
    ensures same_room { length to.new ≡ length to.old }
{
    let count = from.len().min(to.len());
    to[..count].copy_from_slice(&from[..count]);
    count
}
