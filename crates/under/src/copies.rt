// Rank bits as rows: under a run of self each row takes the next rank bit, so that the bits are copied.
ghost use Rattle.std.specs.Prelude.{◌≡◌, ◌+◌, ◌*◌, ◌≤◌, length};
ghost use Rattle.rows.specs.Rows.{count};
ghost use Rattle.rows.specs.Words.{view};
ghost use Rattle.rows.specs.Laid.{laid};
ghost use Rattle.rows.specs.Asks.{Room};

use laid::inner::copy_bits;
use rows::{Rank, Row};

// The n rank bits from a rank on, as rows from a row on; and how many of them are set.
pub fn copy_ranks(
    ranks: &[u64],
    from: u64,
    rank: Rank,
    n: u64,
    at: u64,
    row: Row,
    out: &mut [u64],
) -> u64
    requires { (from ≤ 63) × (rank.0 + n ≤ 1048576) × (from + rank.0 + n ≤ length ranks.now * 64) × Room (at + row.0) n out.old }
    ensures { (result ≡ count (view (from + rank.0) n ranks.now))
        × (out.new ≡ laid (at + row.0) (view (from + rank.0) n ranks.now) out.old) }
{
    copy_bits(ranks, from + rank.0, n, at + row.0, out)
}
