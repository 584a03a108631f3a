// Payloads for a test: document 01's P with 83 and, under the key `x`, one value more; and what the walk answers.
use crate::text;
use refusal::{Broken, Refusal};

// P's two pairs and the key.
pub const START: [u8; 22] = *b"\x83\xA7command\xA4ping\xA4opId\x01\xA1x";

// Where the value stands.
pub const VALUE: usize = 22;

// P with the value that a text says in hex, and a zero behind it; none where the text is not that, or the room too small.
pub fn with_value<'a>(room: &'a mut [u8], hex: &[u8]) -> Option<&'a [u8]> {
    if hex.is_empty() || hex.len() % 2 != 0 {
        return None;
    }
    let longer = room.get_mut(..VALUE + hex.len() / 2 + 1)?;
    longer.fill(0);
    *longer.first_chunk_mut::<VALUE>()? = START;
    for (to, pair) in longer[VALUE..].iter_mut().zip(hex.chunks_exact(2)) {
        *to = u8::try_from(text::number_of(pair, 16)?).ok()?;
    }
    Some(longer)
}

// Whether the walk over a payload finds it whole with so many elements.
pub fn holds(payload: &[u8], elements: usize) -> bool {
    walk::walk(payload) == Ok(elements)
}

// Whether the walk over a payload refuses it so at that place.
pub fn refuses(payload: &[u8], refusal: Refusal, place: usize) -> bool {
    walk::walk(payload) == Err(Broken { refusal, place })
}

// With what the walk refuses a payload.
pub fn refusal(payload: &[u8]) -> Option<Refusal> {
    match walk::walk(payload) {
        Ok(_) => None,
        Err(broken) => Some(broken.refusal),
    }
}
