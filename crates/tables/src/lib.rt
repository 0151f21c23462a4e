// The five constant tables of the step sheet: four by the day of the year, the pressure by the height in metres.
// A lookup reads the constant array in place, by its name: an array that a function hands over is copied to the stack.
#![tactic(auto)]

ghost use Rattle.std.specs.Prelude.{◌≤◌};
ghost use Rattle.tables.specs.Tables.{day_value, DayRule, day_range, PressureEntry, pressure_range, Entry};
ghost use Rattle.tables.specs.Values.{pressure_at};

mod a1_table;
mod albedo_table;
mod aw_table;
mod bw_table;
mod pressure_table;

use a1_table::A1;
use albedo_table::ALBEDO;
use aw_table::AW;
use bw_table::BW;
use pressure_table::PRESSURE;

// The tables by the day of the year, in billionths: 366 entries each.
#[derive(Clone, Copy)]
pub enum DayTable {
    Albedo,
    A1,
    Aw,
    Bw,
}

impl DayTable {
    // The entry of the day d of the year.
    pub fn entry(self, d: usize) -> u32
        requires { (1 ≤ d) × (d ≤ 366) }
        ensures { Entry (day_value self d) (DayRule self d) (day_range self) result }
    {
        match self {
            DayTable::Albedo => ALBEDO[d - 1],
            DayTable::A1 => A1[d - 1],
            DayTable::Aw => AW[d - 1],
            DayTable::Bw => BW[d - 1],
        }
    }
}

// The pressure at e metres, in tenths of a pascal.
pub fn pressure(e: usize) -> u32
    requires { e ≤ 3000 }
    ensures { Entry (pressure_at e) (PressureEntry e) pressure_range result }
{
    PRESSURE[e]
}
