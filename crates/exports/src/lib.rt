// The judge of days, the reader of logs and the writer of reports for programs in other languages, over numbers and byte slices alone. fuortwem.h
// declares them.
#![tactic(auto)]

ghost use Rattle.std.specs.Prelude.{◌≡◌, length};
ghost use Rattle.day.specs.Judgement.{judged};
ghost use Rattle.promises.specs.CropFigures.{CropFiguresOwed};
ghost use Rattle.promises.specs.Demand.{FiguresOwed};
ghost use Rattle.station_log.specs.Log.{outcome_of, buffer_after};
ghost use Rattle.text.specs.Report.{report_of, printed_in, text_over};
ghost use Rattle.exports.specs.HandedIn.{station_of, day_of, mean_of, three_before};
ghost use Rattle.exports.specs.Told.{said, said_by, verdict_said, outcome_said, printed_said, FigureSaid, LengthSaid, ReportSaid};
ghost use Rattle.exports.specs.Version.{version};

use day::judge::judge;
use day::{Code, Day, Earlier, Figure, Station};
use station_log::Fault;

// What stands in the high half for no refusal, and for the mark: a refusal's number has one byte.
const NO_REFUSAL: u32 = 0;

const MARK: u32 = 256;

// The library's version: a program that was compiled with another fuortwem.h sees it here.
#[unsafe(no_mangle)]
pub extern "C" fn fuortwem_version() -> u32
    ensures { result ≡ version }
{
    1_006_000
}

// A refusal's number, 0 for none, or the mark's in the high half, and a value in the low half: the C interface hands back one number, and no enum.
fn packed(number: u32, value: u32) -> u64
    ensures { said_by result ≡ said number value }
{
    u64::from(number) * 4_294_967_296 + u64::from(value)
}

// An earlier mean, unless its flag is 0. The flag is a number, so that each value that a caller can pass has a meaning.
fn mean_of(flag: u8, tenths: i16) -> Option<i16>
    ensures { result ≡ mean_of flag tenths }
{
    (flag != 0).then_some(tenths)
}

// A day handed in alone, as numbers: the C interface takes no structs. The high half of the result is the refusal's number, or 0 or the mark's for
// none; the low half is then the figure.
#[unsafe(no_mangle)]
pub extern "C" fn fuortwem_judge(
    first: u8,
    second: u8,
    third: u8,
    fourth: u8,
    c1: i16,
    c2: i16,
    c3: i16,
    c4: i16,
    c5: i16,
    clear_minimum: u16,
    elevation: u16,
    wind_limit: u16,
    year: u16,
    d: u16,
    maximum: i16,
    minimum: i16,
    mean: i16,
    dewpoint: i16,
    radiation: i16,
    wind: i16,
    has_one: u8,
    one: i16,
    has_two: u8,
    two: i16,
    has_three: u8,
    three: i16,
) -> u64
    ensures result_value { said_by result ≡ verdict_said (judged (station_of first second third fourth c1 c2 c3 c4 c5 clear_minimum elevation wind_limit) (day_of year d maximum minimum mean dewpoint radiation wind) (three_before has_one one has_two two has_three three)) }
    ensures figure_said { FigureSaid (station_of first second third fourth c1 c2 c3 c4 c5 clear_minimum elevation wind_limit) (day_of year d maximum minimum mean dewpoint radiation wind) (three_before has_one one has_two two has_three three) result }
{
    let code = Code {
        first,
        second,
        third,
        fourth,
    };
    let station = Station {
        code,
        c1,
        c2,
        c3,
        c4,
        c5,
        minimum: clear_minimum,
        elevation,
        limit: wind_limit,
    };
    let day = Day {
        year,
        d,
        maximum,
        minimum,
        mean,
        dewpoint,
        radiation,
        wind,
    };
    let earlier = Earlier {
        one: mean_of(has_one, one),
        two: mean_of(has_two, two),
        three: mean_of(has_three, three),
    };
    match judge(station, day, earlier) {
        Ok(Figure::Measured(n)) => packed(NO_REFUSAL, n),
        Ok(Figure::Estimated(n)) => packed(MARK, n),
        Err(why) => packed(why.into(), 0),
    }
}

// A log read to its end or refused. The high half of the result is the refusal's number, 0 for none; the low half is the length written, the
// offset of the record refused or, for 12, the length needed.
#[unsafe(no_mangle)]
pub extern "C" fn fuortwem_read_log(log: &[u8], answers: &mut [u8]) -> u64
    ensures result_value { said_by result ≡ outcome_said (outcome_of log.now (length answers.old)) }
    ensures length_said { LengthSaid log.now answers.old result }
    ensures answers_after { answers.new ≡ buffer_after log.now answers.old }
    ensures figures_owed { FiguresOwed log.now answers.old answers.new }
    ensures crop_figures_owed { CropFiguresOwed log.now answers.old answers.new }
{
    match promises::read_log(log, answers) {
        // By `as`, since no `From` narrows: what a log comes to fits.
        Ok(written) => packed(NO_REFUSAL, written as u32),
        Err(refused) => packed(u8::from(refused.why).into(), refused.place as u32),
    }
}

// A log's report as text, with the answers as `fuortwem_read_log` leaves them. The high half of the result is 0 and the low half the length of the text
// written; or the high half is 12 and the low half the length that the text buffer needs.
#[unsafe(no_mangle)]
pub extern "C" fn fuortwem_report(log: &[u8], answers: &mut [u8], text: &mut [u8]) -> u64
    ensures result_value { said_by result ≡ printed_said (printed_in (length text.old) (report_of log.now (length answers.old))) }
    ensures text_after { text.new ≡ text_over text.old (report_of log.now (length answers.old)) }
    ensures report_said { ReportSaid log.now answers.old text.old result text.new }
    ensures answers_after { answers.new ≡ buffer_after log.now answers.old }
    ensures figures_owed { FiguresOwed log.now answers.old answers.new }
    ensures crop_figures_owed { CropFiguresOwed log.now answers.old answers.new }
{
    match text::write_report(log, answers, text) {
        // By `as` too.
        Ok(printed) => packed(NO_REFUSAL, printed as u32),
        Err(short) => packed(u8::from(Fault::ShortBuffer).into(), short.needed as u32),
    }
}
