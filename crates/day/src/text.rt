// The text of a line, part by part. Each call answers the place behind what it wrote.
ghost use mathlib.Core.{Path.◌≡◌, List.[], List.◌∷◌};
ghost use Rattle.forms.specs.Code.Put.{Put, put, put_parts};
ghost use Rattle.day.specs.Code.Parts.{reading_parts};

use forms::{put_digits, put_run};
use lines::put_counted;

// A number below 2^64 has at most so many decimal digits.
const DIGITS: u8 = 20;

// Station, EUI and counter.
pub fn put_reading(room: &mut [u8], station: u64, eui: u64, counter: u64) -> usize
    ensures { ◌≡◌ {A = Put} (put room.new result) (put_parts (reading_parts station eui counter) (put room.old 0)) }
{
    let space = put_digits(room, 0, DIGITS, station);
    let meter = put_run(room, space, b" ");
    let next = put_digits(room, meter, DIGITS, eui);
    put_counted(room, next, b" ", counter)
}
