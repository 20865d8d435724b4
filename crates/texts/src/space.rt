// Room for bytes.
ghost use Rattle.std.specs.Prelude.{◌≡◌, length};

// N zeros. The contract gives only their number, so that no caller's proof unfolds the array.
// Inlined, so that no caller copies the array.
#[inline]
pub fn zeros<const N: usize>() -> [u8; N]
    ensures { N ≡ length result }
{
    [0; N]
}
