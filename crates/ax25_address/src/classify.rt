// The type of a frame, by its information: `classify` of the source.
ghost use Rattle.std.specs.Prelude.{◌≡◌, ◌&&◌, ◌+◌, ◌^◌, ◌≤◌, ◌<◌, length, get_or, drop};
ghost use Rattle.laws.specs.Text.{is_digit};
ghost use Rattle.ax25_address.specs.Classify.{any_high, one_of, marks_at, is_position, is_timestamped, is_message, stops_at, ends_at, tally, scan_third, is_third, classify_of};
ghost use Rattle.ax25_address.specs.Kind.{type_number};

// What the information of a frame is, with its number.
#[derive(Clone, Copy, Debug, PartialEq, Eq)]
pub enum AprsType {
    Text = 0,
    Binary = 1,
    Position = 2,
    TimestampedPosition = 3,
    Message = 4,
    ThirdParty = 6,
}

impl From<AprsType> for u8 {
    ghost from_gives = { λ kind n. n ≡ type_number kind };

    fn from(kind: AprsType) -> u8 {
        kind as u8
    }
}

// One of two bytes.
fn one_of(x: u8, a: u8, b: u8) -> bool
    ensures { result ≡ one_of x a b }
{
    x == a || x == b
}

// Some byte is 0x80 or more. The bits of all bytes are gathered first, so that the loop has no branch.
pub fn any_high(d: &[u8]) -> bool
    ensures { result ≡ any_high d.now }
{
    let mut all: u8 = 0;
    for x in d {
        all |= *x;
    }
    0x80 <= all
}

// One of two bytes, and a digit after it.
#[tactic(auto, unfolding(laws::specs::Text::is_digit, laws::specs::Text::between))]
pub fn opens(d: &[u8], a: u8, b: u8) -> bool
    requires { 2 ≤ length d.now }
    ensures { result ≡ (one_of (get_or d.now 0 0) a b && is_digit (get_or d.now 1 0)) }
{
    one_of(d[0], a, b) && d[1].is_ascii_digit()
}

// The marks of a latitude and a longitude, of which the first starts at k.
#[tactic(auto, unfolding(crate::specs::Classify::marks_at))]
fn marks_at(d: &[u8], k: usize) -> bool
    requires { k + 18 ≤ length d.now }
    ensures { result ≡ marks_at k d.now }
{
    d[k + 4] == b'.'
        && one_of(d[k + 7], b'N', b'S')
        && d[k + 14] == b'.'
        && one_of(d[k + 17], b'W', b'E')
}

// '!' or '=', a digit, and the marks.
#[tactic(auto, unfolding(crate::specs::Classify::is_position))]
fn is_position(d: &[u8]) -> bool
    ensures { result ≡ is_position d.now }
{
    20 <= d.len() && opens(d, b'!', b'=') && marks_at(d, 1)
}

// '@' or '/', a digit, 'h' after six, and the marks.
#[tactic(auto, unfolding(crate::specs::Classify::is_timestamped))]
fn is_timestamped(d: &[u8]) -> bool
    ensures { result ≡ is_timestamped d.now }
{
    27 <= d.len() && opens(d, b'@', b'/') && d[7] == b'h' && marks_at(d, 8)
}

// ':', and ':' after nine.
#[tactic(auto, unfolding(crate::specs::Classify::is_message))]
fn is_message(d: &[u8]) -> bool
    ensures { result ≡ is_message d.now }
{
    11 <= d.len() && d[0] == b':' && d[10] == b':'
}

// A first comma that "TCPIP," does not follow.
#[tactic(auto, using(crate::proofs::SliceLaws::starts_from), unfolding(crate::specs::Classify::stops_at))]
fn stops_at(d: &[u8], i: usize, comma: usize) -> bool
    requires { i < length d.now }
    ensures { result ≡ stops_at comma (get_or d.now i 0) (drop (i + 1) d.now) }
{
    d[i] == b',' && comma == 0 && !d[i + 1..].starts_with(b"TCPIP,")
}

// "*:" after one '>' and two commas.
#[tactic(auto, unfolding(crate::specs::Classify::ends_at))]
fn ends_at(d: &[u8], i: usize, gt: usize, comma: usize) -> bool
    requires { i < length d.now }
    ensures { result ≡ ends_at gt comma (get_or d.now i 0) (drop (i + 1) d.now) }
{
    d[i] == b'*' && gt == 1 && comma == 2 && d.get(i + 1) == Some(&b':')
}

// One more where the byte is this one.
#[tactic(auto, unfolding(crate::specs::Classify::tally, laws::specs::Pick::pick))]
fn tally(n: usize, x: u8, c: u8) -> usize
    requires { n < 2 ^ 63 }
    ensures { result ≡ tally n x c }
{
    n + usize::from(x == c)
}

// The scan of a third-party frame's header, with the '>' and ',' before each byte counted.
fn scan_third(d: &[u8]) -> bool
    ensures { result ≡ scan_third 0 0 d.now }
{
    let mut gt = 0;
    let mut comma = 0;
    for (i, x) in d.iter().enumerate() {
        if stops_at(d, i, comma) {
            return false;
        }
        if ends_at(d, i, gt, comma) {
            return true;
        }
        gt = tally(gt, *x, b'>');
        comma = tally(comma, *x, b',');
    }
    false
}

// '}', and a header after it.
#[tactic(auto, unfolding(crate::specs::Classify::is_third))]
fn is_third(d: &[u8]) -> bool
    ensures { result ≡ is_third d.now }
{
    21 <= d.len() && d[0] == b'}' && scan_third(d)
}

// The type, by the information; ap: the destination starts with AP, and the command is not Ax25Long.
#[tactic(auto, unfolding(crate::specs::Classify::classify_of, laws::specs::Pick::pick))]
pub fn classify(ap: bool, info: &[u8]) -> AprsType
    ensures { type_number result ≡ classify_of ap info.now }
{
    if any_high(info) {
        AprsType::Binary
    } else if !ap {
        AprsType::Text
    } else if is_position(info) {
        AprsType::Position
    } else if is_timestamped(info) {
        AprsType::TimestampedPosition
    } else if is_message(info) {
        AprsType::Message
    } else if is_third(info) {
        AprsType::ThirdParty
    } else {
        AprsType::Text
    }
}
