// The table as its columns are lent to each call: to write where the call may change them, and else to read.
ghost use Rattle.std.specs.Prelude.{◌≡◌, ◌<◌, length, set};
ghost use Rattle.meters.specs.Columns.{columns, told_place, told_credit, find_on, enrol_on, withdraw_on, uplink_on, row_at, even};
ghost use Rattle.meters.specs.Lent.{found_in, enrolled_in, withdrawn_in, credited_in, StillEnrols, StillWithdraws, StillCredits};
ghost use Rattle.meters.specs.Rows.{is_mark};
ghost use Rattle.meters.specs.Code.Store.{put_row, meter_place, free_row, Even};

use crate::{Credit, Row};
use refusal::Refusal;

// Stations are numbered from 0.
const MOST_STATION: u64 = 63;

// Five columns: a row is entry i of each.
#[derive(Drop)]
pub struct Table<Used, Euis, Shorts, Lasts, Heards> {
    pub used: Used,
    pub euis: Euis,
    pub shorts: Shorts,
    pub lasts: Lasts,
    pub heards: Heards,
}

pub type Finds<'a> = Table<&'a [u8], &'a [u64], &'a [u16], &'a [u32], &'a [u64]>;

pub type Enrols<'a> = Table<
    &'a mut [u8],
    &'a mut [u64],
    &'a mut [u16],
    &'a mut [u32],
    &'a mut [u64],
>;

pub type Withdraws<'a, 'b> = Table<&'b mut [u8], &'a [u64], &'a [u16], &'a [u32], &'a [u64]>;

pub type Credits<'a, 'b> = Table<&'a [u8], &'a [u64], &'a [u16], &'b mut [u32], &'b mut [u64]>;

impl Finds<'_> {
    // The meter's row number; 24, 21.
    #[tactic(auto, using(crate::proofs::Laws::finds))]
    pub fn find(&self, eui: u64) -> Result<usize, Refusal>
        ensures { told_place result (found_in self.now) ≡ find_on (found_in self.now) eui }
    {
        if !self.is_even() {
            return Err(Refusal::UnequalColumns);
        }
        self.place(eui).ok_or(Refusal::NoRow)
    }

    // Whether the columns are equally long, and so make a table.
    #[tactic(auto, unfolding(crate::specs::Columns::same_lengths))]
    fn is_even(&self) -> bool
        ensures { result ≡ even (found_in self.now) }
    {
        let n = self.used.len();
        (self.euis.len() == n)
            & (self.shorts.len() == n)
            & (self.lasts.len() == n)
            & (self.heards.len() == n)
    }

    // The lookup: the first row of the meter. All that the calls know of it stands in this contract.
    #[tactic(auto, unfolding(crate::specs::Code::Store::meter_place))]
    fn place(&self, eui: u64) -> Option<usize>
        requires { length self.now.euis.now ≡ length self.now.used.now }
        ensures { result ≡ meter_place (found_in self.now) eui }
    {
        self.used
            .iter()
            .zip(self.euis)
            .position(|(mark, e)| is_meter(*mark, *e, eui))
    }

    // The lowest free row.
    #[tactic(auto, unfolding(crate::specs::Code::Store::free_row))]
    fn free_place(&self) -> Option<usize>
        ensures { result ≡ free_row (found_in self.now) }
    {
        self.used.iter().position(|mark| *mark == 0)
    }

    fn row_at(&self, i: usize) -> Row
        requires { Even (found_in self.now) × (i < length self.now.used.now) }
        ensures { result ≡ row_at (found_in self.now) i }
    {
        Row {
            used: self.used[i],
            eui: self.euis[i],
            short: self.shorts[i],
            last: self.lasts[i],
            heard: self.heards[i],
        }
    }
}

// Whether a row with this mark and this EUI is the meter's.
fn is_meter(mark: u8, eui: u64, wanted: u64) -> bool
    ensures { result ≡ is_mark mark eui wanted }
{
    (mark != 0) & (eui == wanted)
}

impl Enrols<'_> {
    // Takes the lowest free row for the meter; 24, 22, 23.
    #[tactic(auto, using(crate::proofs::Laws::enrols))]
    pub fn enrol(&mut self, eui: u64, short: u16, counter: u32) -> Result<usize, Refusal>
        ensures told { told_place result (enrolled_in self.new) ≡ enrol_on (enrolled_in self.old) eui short counter }
        ensures lent { StillEnrols self.old self.new }
    {
        let table = self.shown();
        if !table.is_even() {
            return Err(Refusal::UnequalColumns);
        }
        if table.place(eui).is_some() {
            return Err(Refusal::AlreadyEnrolled);
        }
        let i = table.free_place().ok_or(Refusal::NoFreeRow)?;
        let row = Row {
            used: 1,
            eui,
            short,
            last: counter,
            heard: 0,
        };
        self.put(i, row);
        Ok(i)
    }

    fn shown(&self) -> Finds<'_>
        ensures { found_in result ≡ enrolled_in self.now }
    {
        Table {
            used: self.used,
            euis: self.euis,
            shorts: self.shorts,
            lasts: self.lasts,
            heards: self.heards,
        }
    }

    // Row i becomes this row.
    fn put(&mut self, i: usize, row: Row)
        requires { Even (enrolled_in self.old) × (i < length self.old.used.now) }
        ensures put { enrolled_in self.new ≡ put_row (enrolled_in self.old) i row }
        ensures lent { StillEnrols self.old self.new }
    {
        self.used[i] = row.used;
        self.euis[i] = row.eui;
        self.shorts[i] = row.short;
        self.lasts[i] = row.last;
        self.heards[i] = row.heard;
    }
}

impl Withdraws<'_, '_> {
    // Frees the meter's row; 24, 21.
    #[tactic(auto, using(crate::proofs::Laws::withdraws))]
    pub fn withdraw(&mut self, eui: u64) -> Result<usize, Refusal>
        ensures told { told_place result (withdrawn_in self.new) ≡ withdraw_on (withdrawn_in self.old) eui }
        ensures lent { StillWithdraws self.old self.new }
    {
        let i = self.shown().find(eui)?;
        self.used[i] = 0;
        Ok(i)
    }

    fn shown(&self) -> Finds<'_>
        ensures { found_in result ≡ withdrawn_in self.now }
    {
        Table {
            used: self.used,
            euis: self.euis,
            shorts: self.shorts,
            lasts: self.lasts,
            heards: self.heards,
        }
    }
}

impl Credits<'_, '_> {
    // Credits a packet to the meter; 24, 25, 21, 26.
    #[tactic(auto, using(crate::proofs::Laws::credits))]
    pub fn uplink(&mut self, eui: u64, counter: u32, station: u64) -> Result<Credit, Refusal>
        ensures told { told_credit result (credited_in self.new) ≡ uplink_on (credited_in self.old) eui counter station }
        ensures lent { StillCredits self.old self.new }
    {
        let table = self.shown();
        if !table.is_even() {
            return Err(Refusal::UnequalColumns);
        }
        if MOST_STATION < station {
            return Err(Refusal::StationNumber);
        }
        let i = table.place(eui).ok_or(Refusal::NoRow)?;
        let row = table.row_at(i);
        let told = crate::hear(i, row, counter, station);
        let next = told.row;
        self.put_heard(i, next);
        told.answer
    }

    // Row i takes this row's last counter and heard set.
    fn put_heard(&mut self, i: usize, row: Row)
        requires { (i < length self.old.lasts.now) × (i < length self.old.heards.now) }
        ensures put { credited_in self.new ≡ columns self.old.used.now self.old.euis.now self.old.shorts.now
            (set self.old.lasts.now i row.last) (set self.old.heards.now i row.heard) }
        ensures lent { StillCredits self.old self.new }
    {
        self.lasts[i] = row.last;
        self.heards[i] = row.heard;
    }

    fn shown(&self) -> Finds<'_>
        ensures { found_in result ≡ credited_in self.now }
    {
        Table {
            used: self.used,
            euis: self.euis,
            shorts: self.shorts,
            lasts: self.lasts,
            heards: self.heards,
        }
    }
}
