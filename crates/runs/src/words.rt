// Runs as records, checked and summed in one pass, and laid over lent words in another.
ghost use Rattle.std.specs.Prelude.{◌≡◌, []};
ghost use Rattle.rows.specs.Asks.{Room};
ghost use Rattle.rows.specs.Laid.{laid};
ghost use Rattle.rows.specs.Runs.{Apart, in_runs};
ghost use Rattle.rows.specs.Table.{operand_1};
ghost use Rattle.rules.specs.declared.Form.TheVariants.{Runs};
ghost use Rattle.rules.specs.Operand.{lent};
ghost use Rattle.rules.specs.Records.{numbers_of};
ghost use Rattle.operand.specs.Counts.{checked_of};

use fills::inner::lay::lay_run;
use laid::inner::clear;
use operand::inner::checks::run_fits;
use rows::inner::verdicts::refusal_of;
use rows::{Reason, Refusal, Which};
use rules::Run;

// The checks of an operand that is these runs, and its count: the runs' lengths summed.
pub fn check_runs(length: u64, runs: &[Run]) -> Result<u64, Refusal>
    ensures { result ≡ checked_of operand_1 (lent (Runs length) [] (numbers_of runs.now)) }
{
    if length > 1048576 {
        return Err(refusal_of(Which::First, Reason::LengthOverLimit));
    }
    let mut least: u64 = 0;
    let mut sum: u64 = 0;
    for run in runs {
        let first = run.first as u64;
        let past = run.past as u64;
        if !run_fits(least, first, past, length) {
            return Err(refusal_of(Which::First, Reason::RunsUnfit));
        }
        sum += past - first;
        least = past + 1;
    }
    Ok(sum)
}

// The rows that the runs say, from bit 0 on: each gap and each run, and the rows past the last.
pub fn lay_runs(length: u64, runs: &[Run], out: &mut [u64])
    requires { Apart 0 length (numbers_of runs.now) × Room 0 length out.old }
    ensures { out.new ≡ laid 0 (in_runs length (numbers_of runs.now)) out.old }
{
    let mut done: u64 = 0;
    for run in runs {
        let past = run.past as u64;
        lay_run(done, run.first as u64, past, 0, out);
        done = past;
    }
    clear(out, done, length - done);
}
