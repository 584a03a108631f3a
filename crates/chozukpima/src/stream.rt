// Frames in the bytes that arrived, and the form of their payloads.
ghost use Rattle.std.specs.Prelude.{◌≡◌};
ghost use Rattle.element.specs.Form.{walk_of};
ghost use Rattle.frame.specs.Frame.{framed_of};
ghost use Rattle.chozukpima.specs.Packed.{frame_answer, form_answer};

use crate::answer::{pack, refuse};
use refusal::Broken;

// A frame at the start of the bytes: how many bytes it takes; 1, 2, 3.
pub fn chz_frame(bytes: &[u8]) -> u64
    ensures { result ≡ frame_answer (framed_of bytes.now) }
{
    match frame::read(bytes) {
        Ok(n) => pack(0, 0, frame::HEAD + n),
        Err(r) => refuse(r),
    }
}

// The form of a payload alone: how many elements it has; 3 to 10, with the place for 4 to 10.
pub fn chz_form(payload: &[u8]) -> u64
    ensures { result ≡ form_answer (walk_of payload.now) }
{
    match walk::walk(payload) {
        Ok(n) => pack(0, 0, n),
        Err(Broken { refusal, place }) => pack(refusal.number(), 0, place),
    }
}
