// How many digipeaters a frame has, and where its address fields end: that part of `parse` of the source.
ghost use Rattle.std.specs.Prelude.{◌≡◌, ◌+◌, ◌*◌, ◌^◌, ◌≤◌, ◌<◌, length};
ghost use Rattle.ax25_address.specs.Digis.{digis_from};
ghost use Rattle.ax25_address.specs.Parse.{parse_of, count_of};

// Where the address fields end.
pub fn addr_end(digis: usize, l: usize) -> usize
    requires { (digis ≤ 8) × (l ≤ 7) }
    ensures { result ≡ (digis + 2) * (l + 1) }
{
    (digis + 2) * (l + 1)
}

// How many address fields stand after destination and source: up to an SSID byte with its low bit set, at most eight. None where a field is cut off.
fn digi_fields(frame: &[u8], l: usize) -> Option<usize>
    requires { (l ≤ 7) × (2 * (l + 1) ≤ length frame.now) × (length frame.now < 2 ^ 60) }
    ensures { result ≡ digis_from l 0 frame.now }
{
    for n in 0..8 {
        let pos = addr_end(n, l);
        if frame[pos - 1] % 2 == 1 {
            return Some(n);
        }
        if frame.len() < pos + l + 1 {
            return None;
        }
    }
    Some(8)
}

// How many digipeaters a frame has: up to an SSID byte with its low bit set, at most eight. None where the frame is short.
pub fn digipeaters(frame: &[u8], l: usize) -> Option<usize>
    requires { (l ≤ 7) × (length frame.now < 2 ^ 60) }
    ensures { result ≡ count_of (parse_of l frame.now) }
{
    if frame.len() < addr_end(0, l) {
        return None;
    }
    let n = digi_fields(frame, l)?;
    if frame.len() < addr_end(n, l) + 2 {
        return None;
    }
    Some(n)
}
