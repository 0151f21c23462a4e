// A station log read to its end or refused, with what is promised of its figures.
#![tactic(auto)]

ghost use Rattle.station_log.specs.Log.{Read};
ghost use Rattle.promises.specs.CropFigures.{CropFiguresOwed};
ghost use Rattle.promises.specs.Demand.{NotRefused, FiguresOwed};

use station_log::Refused;

// Reads a log: its answers in the lent buffer.
pub fn read_log(log: &[u8], answers: &mut [u8]) -> Result<usize, Refused>
    ensures read { Read log.now answers.old result answers.new }
    ensures not_refused { NotRefused log.now answers.old result }
    ensures figures_owed { FiguresOwed log.now answers.old answers.new }
    ensures crop_figures_owed { CropFiguresOwed log.now answers.old answers.new }
{
    walk::read_log(log, answers)
}
