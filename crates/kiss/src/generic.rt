// Generic bytes: `generic_encode` and `generic_decode` of the source.
ghost use Rattle.std.specs.Prelude.{◌^◌, ◌<◌, length, get_or, drop};
ghost use Rattle.laws.specs.Wrote.{Wrote};
ghost use Rattle.kiss.specs.Generic.{generic_of, generic_back};

// The message of the bytes, as far as the output goes. Its length.
pub(crate) fn generic_encode(data: &[u8], out: &mut [u8]) -> usize
    requires { length «data».now < 2 ^ 56 }
    ensures { Wrote out.old 0 (generic_of «data».now) out.new result }
{
    if ax25_address::classify::any_high(data) {
        bits_write::byte(out, 0, 0x20);
        return bits_write::copy(out, 1, data);
    }
    bits_write::byte(out, 0, 0x21);
    bits_write::push_text7(out, 8, false, data) / 8
}

// The bytes of a message with a header, as far as the output goes. Their length.
pub(crate) fn generic_decode(message: &[u8], out: &mut [u8]) -> usize
    requires { (0 < length message.now) × (length message.now < 2 ^ 56) }
    ensures { Wrote out.old 0 (generic_back (get_or message.now 0 0) (drop 1 message.now)) out.new result }
{
    if message[0] % 2 == 0 {
        return bits_write::copy(out, 0, &message[1..]);
    }
    bits::reader::text7_at(&message[1..], 0, out, 0).unwrap_or(0)
}
