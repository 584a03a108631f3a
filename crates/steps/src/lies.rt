// A session where it lies: what its bytes say. The places are those of the C struct chz_session.
ghost use Rattle.std.specs.Prelude.{◌≡◌, ◌+◌, ◌≤◌, length};
ghost use Rattle.session.specs.Arrive.{highest_of, lowest_of};
ghost use Rattle.session.specs.Image.{id_at, session_at, are_zeros, is_session};
ghost use Rattle.steps.specs.Code.Lies.{Lies};

pub const SIZE: usize = 368;

pub const HIGHEST: usize = 8;

pub const LOWEST: usize = 16;

pub const STATION_IDS: usize = 24;

pub const CENTRE_IDS: usize = 152;

pub const STATION_KINDS: usize = 280;

pub const CENTRE_KINDS: usize = 296;

pub const BS_UUID: usize = 312;

pub const SC_UUID: usize = 328;

pub const STATE: usize = 344;

pub const STORED: usize = 345;

pub const SPARE: usize = 346;

// How many operations each side may have open.
pub const PLACES: usize = 16;

// The states, as bytes: an enum would be read from and written to this byte of the C struct at each place that names one, and say no more.
pub const WAITING: u8 = 0;

pub const CONNECTING: u8 = 1;

pub const OPEN: u8 = 2;

// Whether the bytes are some session's.
#[tactic(auto, using(crate::proofs::Lying::session_short))]
pub fn is_session(d: &[u8]) -> bool
    ensures { result ≡ is_session d.now }
{
    d.len() == SIZE && (d[STATE] < 3) & (d[STORED] < 2) & are_zeros(&d[SPARE..])
}

// Whether the bytes are zeros. No way out of the loop before its end, so that many bytes are tested at once.
#[tactic(auto, using(crate::proofs::Lying::zeros_next, crate::proofs::Lying::zeros_end))]
fn are_zeros(d: &[u8]) -> bool
    ensures { result ≡ are_zeros d.now }
{
    let mut ok = true;
    for b in d {
        ok &= *b == 0;
    }
    ok
}

// The operation ID that stands at a place.
pub fn id_at(d: &[u8], at: usize) -> i64
    requires { at + 8 ≤ length d.now }
    ensures { result ≡ id_at d.now at }
{
    octets::signed_of(octets::little_at(d, at, 8))
}

// Before any, both count as 0, as do a negative highest or a positive lowest handed in.
#[tactic(auto, using(crate::proofs::Knowing::highest_max), unfolding(session::specs::Image::session_at))]
pub fn highest_of(d: &[u8]) -> i64
    requires { Lies d.now }
    ensures { result ≡ highest_of (session_at d.now) }
{
    id_at(d, HIGHEST).max(0)
}

#[tactic(auto, using(crate::proofs::Knowing::lowest_min), unfolding(session::specs::Image::session_at))]
pub fn lowest_of(d: &[u8]) -> i64
    requires { Lies d.now }
    ensures { result ≡ lowest_of (session_at d.now) }
{
    id_at(d, LOWEST).min(0)
}
