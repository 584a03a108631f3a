// The size of a payload (document 01, "Frame").
ghost use Rattle.std.specs.Prelude.{◌≡◌};
ghost use Rattle.octets.specs.Size.{is_size};

pub const MOST_PAYLOAD: usize = 4096;

// A payload may have n bytes.
#[tactic(auto, unfolding(crate::specs::Size::is_size))]
pub fn is_size(n: usize) -> bool
    ensures { result ≡ is_size n }
{
    1 <= n && n <= MOST_PAYLOAD
}
