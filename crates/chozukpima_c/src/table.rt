// The meter table's calls.
ghost use Rattle.std.specs.Prelude.{◌≡◌};
ghost use Rattle.meters.specs.Columns.{columns, find_on, enrol_on, withdraw_on, uplink_on};
ghost use Rattle.chozukpima.specs.Packed.{Tabled, tabled, placed, credit_tabled};

use meters::Table;

// The meter's row; 24, 21.
#[unsafe(no_mangle)]
pub extern "C" fn chz_find(
    used: &[u8],
    euis: &[u64],
    shorts: &[u16],
    lasts: &[u32],
    heards: &[u64],
    meter: u64,
) -> u64
    ensures { ◌≡◌ {A = Tabled} (tabled result (columns used.now euis.now shorts.now lasts.now heards.now))
        (placed (find_on (columns used.now euis.now shorts.now lasts.now heards.now) meter)) }
{
    let table = Table {
        used,
        euis,
        shorts,
        lasts,
        heards,
    };
    chozukpima::table::chz_find(&table, meter)
}

// Takes the lowest free row for a meter; 24, 22, 23.
#[unsafe(no_mangle)]
pub extern "C" fn chz_enrol(
    used: &mut [u8],
    euis: &mut [u64],
    shorts: &mut [u16],
    lasts: &mut [u32],
    heards: &mut [u64],
    meter: u64,
    short: u16,
    counter: u32,
) -> u64
    ensures { ◌≡◌ {A = Tabled} (tabled result (columns used.new euis.new shorts.new lasts.new heards.new))
        (placed (enrol_on (columns used.old euis.old shorts.old lasts.old heards.old) meter short counter)) }
{
    let mut table = Table {
        used,
        euis,
        shorts,
        lasts,
        heards,
    };
    chozukpima::table::chz_enrol(&mut table, meter, short, counter)
}

// Frees the meter's row; 24, 21.
#[unsafe(no_mangle)]
pub extern "C" fn chz_withdraw(
    used: &mut [u8],
    euis: &[u64],
    shorts: &[u16],
    lasts: &[u32],
    heards: &[u64],
    meter: u64,
) -> u64
    ensures { ◌≡◌ {A = Tabled} (tabled result (columns used.new euis.now shorts.now lasts.now heards.now))
        (placed (withdraw_on (columns used.old euis.now shorts.now lasts.now heards.now) meter)) }
{
    let mut table = Table {
        used,
        euis,
        shorts,
        lasts,
        heards,
    };
    chozukpima::table::chz_withdraw(&mut table, meter)
}

// Credits a packet: new or a copy, how many stations heard it, and the meter's row; 24, 25, 21, 26.
#[unsafe(no_mangle)]
pub extern "C" fn chz_uplink(
    used: &[u8],
    euis: &[u64],
    shorts: &[u16],
    lasts: &mut [u32],
    heards: &mut [u64],
    meter: u64,
    counter: u32,
    station: u64,
) -> u64
    ensures { ◌≡◌ {A = Tabled} (tabled result (columns used.now euis.now shorts.now lasts.new heards.new))
        (credit_tabled (uplink_on (columns used.now euis.now shorts.now lasts.old heards.old) meter counter station)) }
{
    let mut table = Table {
        used,
        euis,
        shorts,
        lasts,
        heards,
    };
    chozukpima::table::chz_uplink(&mut table, meter, counter, station)
}
