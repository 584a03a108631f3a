// A number written into a lent room, group by group. A group that has no room is left out; the answer is the place behind what was written.
ghost use Rattle.std.specs.Prelude.{◌≡◌};
ghost use Rattle.forms.specs.Code.Put.{Put, put, put_parts};
ghost use Rattle.groups.specs.Code.Parts.{group_parts};

// A number below 2^64 has at most so many groups.
const MOST: u8 = 10;

pub fn put_number(room: &mut [u8], at: usize, n: u64) -> usize
    ensures { ◌≡◌ {A = Put} (put room.new result) (put_parts (group_parts 10 n) (put room.old at)) }
{
    put_groups(room, at, MOST, n)
}

// It calls itself as the definition `group_parts` does; a loop would carry room, place and rest along.
#[tactic(auto, using(crate::proofs::Writing::writes))]
fn put_groups(room: &mut [u8], at: usize, most: u8, n: u64) -> usize
    ensures { ◌≡◌ {A = Put} (put room.new result) (put_parts (group_parts most n) (put room.old at)) }
{
    if most == 0 {
        return at;
    }
    if n < 128 {
        let group = [n as u8];
        return forms::put_run(room, at, &group);
    }
    let group = [128 + ((n % 128) as u8)];
    let next = forms::put_run(room, at, &group);
    put_groups(room, next, most - 1, n / 128)
}
