// The two sides of a session: each has sixteen places for its operations, and a bound of their IDs.
ghost use Rattle.std.specs.Prelude.{◌≡◌, ◌≤◌};
ghost use Rattle.steps.specs.Code.Lies.{side_ids, side_kinds, bound_place};

use crate::lies;

#[derive(Clone, Copy, Debug, PartialEq, Eq)]
pub enum Side {
    Station,
    Centre,
}

impl Side {
    // Three short tables, one for each thing that a side has: as one, they would be a table of tables.
    // Where its IDs stand, one behind the other.
    pub fn ids(self) -> usize
        ensures is { result ≡ side_ids self }
        ensures few { result ≤ 152 }
    {
        match self {
            Side::Station => lies::STATION_IDS,
            Side::Centre => lies::CENTRE_IDS,
        }
    }

    // Where its kinds stand, in the order of the IDs.
    pub fn kinds(self) -> usize
        ensures is { result ≡ side_kinds self }
        ensures few { result ≤ 296 }
    {
        match self {
            Side::Station => lies::STATION_KINDS,
            Side::Centre => lies::CENTRE_KINDS,
        }
    }

    // Where the highest ID of the station stands, and the lowest of the centre.
    pub fn bound(self) -> usize
        ensures { result ≡ bound_place self }
    {
        match self {
            Side::Station => lies::HIGHEST,
            Side::Centre => lies::LOWEST,
        }
    }
}
