// A stream's state within its bound, of compositions and of recoveries.
ghost use Rattle.std.specs.Prelude.{◌≡◌};
ghost use Rattle.rows.specs.Table.{first};
ghost use Rattle.rules.specs.Stream.{bound_checks};

use rows::inner::verdicts::at_most;
use rows::{Rank, Reason, Refusal, Row};

// The most rows that a stream's state may have: what `Composer` and `Recoverer` call their row limit.
pub const ROW_LIMIT: u64 = 1_048_576;

// No more is kept than there are ranks, no more ranks than rows, and no more rows than the limit.
pub fn judge_state(done: Row, ranks: Rank, kept: u64) -> Result<(), Refusal>
    ensures { result ≡ first (bound_checks done.0 ranks.0 kept) }
{
    at_most(Reason::StateOutOfBound, kept, ranks.0)?;
    at_most(Reason::StateOutOfBound, ranks.0, done.0)?;
    at_most(Reason::StateOutOfBound, done.0, ROW_LIMIT)
}
