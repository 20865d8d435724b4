// A position's numbers, latitude to symbol: one reader takes them in turn.
ghost use Rattle.std.specs.Prelude.{◌≡◌, ◌^◌, ◌≤◌, ◌<◌, length};
ghost use Rattle.laws.specs.Pick.{pick};
ghost use Rattle.laws.specs.Bits.{unpack};
ghost use Rattle.ax25_aprs.specs.Place.{Placed};

use bits::reader::Reader;

// The numbers of a position, and the next bit position.
#[derive(Clone, Copy, Debug, PartialEq, Eq)]
pub struct Place {
    pub lat: u64,
    pub north: bool,
    pub listed: bool,
    pub table: u64,
    pub lon: u64,
    pub west: bool,
    pub symbol: u64,
    pub next: usize,
}

// How many bits a symbol table has: 3 by its place in the list, else 7.
#[tactic(auto, unfolding(laws::specs::Pick::pick))]
fn width(listed: bool) -> usize
    ensures { (result ≡ pick listed 3 7) × (result ≤ 7) }
{
    if listed { 3 } else { 7 }
}

// The position that stands from a bit on: latitude, N or S, whether the table is by its place, table, longitude, W or E, symbol.
pub fn place_at(s: &[u8], at: usize) -> Option<Place>
    requires { length s.now < 2 ^ 60 }
    ensures { Placed (unpack s.now) at result }
{
    let mut r = Reader { bytes: s, at };
    let (lat, _) = r.take(20)?;
    let (north, _) = r.bit()?;
    let (listed, _) = r.bit()?;
    let (table, _) = r.take(width(listed == 1))?;
    let (lon, _) = r.take(21)?;
    let (west, _) = r.bit()?;
    let (symbol, next) = r.take(7)?;
    Some(Place {
        lat,
        north: north == 1,
        listed: listed == 1,
        table,
        lon,
        west: west == 1,
        symbol,
        next,
    })
}
