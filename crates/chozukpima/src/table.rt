// The meter table's calls.
ghost use Rattle.std.specs.Prelude.{◌≡◌};
ghost use Rattle.meters.specs.Answers.{credit_refusal_of, credit_row_of, hearers_of};
ghost use Rattle.meters.specs.Columns.{find_on, enrol_on, withdraw_on, uplink_on};
ghost use Rattle.meters.specs.Lent.{found_in, enrolled_in, withdrawn_in, credited_in, StillEnrols, StillWithdraws, StillCredits};
ghost use Rattle.chozukpima.specs.Packed.{shown, packed, kind_number, credit_kind, credit_value, Tabled, tabled, placed, credit_tabled};

use crate::answer::{MOST_VALUE, pack, refuse, value_answer};
use meters::{Credit, Credits, Enrols, Finds, Kind, Withdraws};
use refusal::Refusal;

// What happened, where a packet is credited: no number of a session's step.
const NEW_PACKET: u8 = 17;

const COPY: u8 = 18;

// Above it a row has no room beside the hearers.
const MOST_ROW: usize = 0xFF_FFFF_FFFF;

// A credit's value. A row past 40 bits, whose product may wrap, has the greatest value, as `pack` would show it.
#[tactic(auto, using(crate::proofs::Answers::shown_past), unfolding(crate::specs::Packed::credit_value))]
fn credit_value(hearers: u32, row: usize) -> usize
    ensures { shown result ≡ shown (credit_value hearers row) }
{
    if MOST_ROW < row {
        return MOST_VALUE;
    }
    hearers as usize + 256 * row
}

fn kind_number(kind: Kind) -> u8
    ensures { result ≡ kind_number kind }
{
    match kind {
        Kind::New => NEW_PACKET,
        Kind::Copy => COPY,
    }
}

#[tactic(auto, unfolding(crate::specs::Packed::credit_value, crate::specs::Packed::packed))]
fn credit_answer(credit: Result<Credit, Refusal>) -> u64
    ensures { result ≡ packed (credit_refusal_of credit) (credit_kind credit) (credit_value (hearers_of credit) (credit_row_of credit)) }
{
    match credit {
        Ok(c) => pack(0, kind_number(c.kind), credit_value(c.hearers, c.row)),
        Err(r) => refuse(r),
    }
}

// The meter's row; 24, 21.
pub fn chz_find(table: &Finds, meter: u64) -> u64
    ensures { ◌≡◌ {A = Tabled} (tabled result (found_in table.now)) (placed (find_on (found_in table.now) meter)) }
{
    value_answer(table.find(meter))
}

// Takes the lowest free row for a meter; 24, 22, 23.
pub fn chz_enrol(table: &mut Enrols, meter: u64, short: u16, counter: u32) -> u64
    ensures answer { ◌≡◌ {A = Tabled} (tabled result (enrolled_in table.new)) (placed (enrol_on (enrolled_in table.old) meter short counter)) }
    ensures lent { StillEnrols table.old table.new }
{
    value_answer(table.enrol(meter, short, counter))
}

// Frees the meter's row; 24, 21.
pub fn chz_withdraw(table: &mut Withdraws, meter: u64) -> u64
    ensures answer { ◌≡◌ {A = Tabled} (tabled result (withdrawn_in table.new)) (placed (withdraw_on (withdrawn_in table.old) meter)) }
    ensures lent { StillWithdraws table.old table.new }
{
    value_answer(table.withdraw(meter))
}

// Credits a packet: new or a copy, how many stations heard it, and the meter's row; 24, 25, 21, 26.
pub fn chz_uplink(table: &mut Credits, meter: u64, counter: u32, station: u64) -> u64
    ensures answer { ◌≡◌ {A = Tabled} (tabled result (credited_in table.new))
        (credit_tabled (uplink_on (credited_in table.old) meter counter station)) }
    ensures lent { StillCredits table.old table.new }
{
    credit_answer(table.uplink(meter, counter, station))
}
