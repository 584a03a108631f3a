// The key and the command that a name is, by its length and then by one or two numbers that its bytes write. Every call takes any bytes.
#![tactic(auto)]

ghost use Rattle.std.specs.Prelude.{◌≡◌, ◌≤◌, length};
ghost use Rattle.octets.specs.Number.{big_at, if_there};
ghost use Rattle.names.specs.{Names.command_of, Code.Slots.slot_of};

mod commands;
mod keys;
pub mod numbers;
pub mod slots;

use octets::big_at;

// The key's slot; 55 for a key of no command: `notes` has a place for such keys too, so that no pair of the outer map is a case apart, as an Option would make it.
pub fn slot_of(key: &[u8]) -> usize
    ensures is { result ≡ slot_of key.now }
    ensures small { result ≤ 55 }
{
    match key.len() {
        3 => keys::three(big_at(key, 0, 2), big_at(key, 2, 1)),
        4 => keys::four(big_at(key, 0, 4)),
        5 => keys::five(big_at(key, 0, 4), big_at(key, 4, 1)),
        6 => keys::six(big_at(key, 0, 4), big_at(key, 4, 2)),
        7 => keys::seven(big_at(key, 0, 4), big_at(key, 4, 3)),
        8 => keys::eight(eight_of(key)),
        9 => keys::nine(eight_of(key), big_at(key, 8, 1)),
        10 => keys::ten(eight_of(key), big_at(key, 8, 2)),
        11 => keys::eleven(eight_of(key), big_at(key, 8, 3)),
        12 => keys::twelve(eight_of(key), big_at(key, 8, 4)),
        13 => keys::thirteen(eight_of(key), big_at(key, 8, 5)),
        _ => slots::NONE,
    }
}

// The command's number; 24 for a name of no command: the definition `command_of`, by which session's and live's definitions name their commands, is that number.
pub fn command_of(name: &[u8]) -> u8
    ensures is { result ≡ command_of name.now }
    ensures small { result ≤ 24 }
{
    match name.len() {
        3 => commands::three(big_at(name, 0, 2), big_at(name, 2, 1)),
        4 => commands::four(big_at(name, 0, 4)),
        6 => commands::six(big_at(name, 0, 4), big_at(name, 4, 2)),
        7 => commands::seven(big_at(name, 0, 4), big_at(name, 4, 3)),
        9 => commands::nine(eight_of(name), big_at(name, 8, 1)),
        12 => commands::twelve(eight_of(name), big_at(name, 8, 4)),
        _ => numbers::COMMANDS,
    }
}

// The number of the first eight bytes, by halves: so it compiles to one load, as a loop over eight bytes does not.
fn eight_of(s: &[u8]) -> u64
    requires { 8 ≤ length s.now }
    ensures { result ≡ if_there s.now 0 8 (big_at s.now 0 8) }
{
    big_at(s, 0, 4) * 4294967296 + big_at(s, 4, 4)
}
