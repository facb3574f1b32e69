// Self is a list, or runs: a kernel for runs that are longer than a row, and one for entries.
ghost use Rattle.std.specs.Prelude.{◌≡◌, true, [], ◌+◌, ◌*◌, ◌≤◌, length, drop};
ghost use Rattle.rows.specs.Rows.{compose};
ghost use Rattle.rows.specs.Words.{bits_of_all};
ghost use Rattle.rows.specs.Lists.{listed, Ascending};
ghost use Rattle.rows.specs.Runs.{in_runs, Apart};
ghost use Rattle.rows.specs.Laid.{laid};
ghost use Rattle.rows.specs.Asks.{Room};
ghost use Rattle.rules.specs.Operand.{lent, rows_of, length_of, count_of, counts_as_list, Accepted};
ghost use Rattle.by_route.specs.Fits.{has_long_runs, numbers_of};

use kept::inner::lay_entries_by_runs;
use marks::inner::{Numbers, lay_entry_at_rank, lay_entry_if_set};
use operand::inner::forms::{has_runs, length_of};
use rules::Form;
use under::inner::{lay_entries_in_runs, lay_ranks_under_runs, lay_runs_in_runs};

// Runs, of which one at least is longer than a row: they have more rows than they are. Runs of one row each are laid as a list is.
fn has_long_runs(s: Form, count: u64, numbers: &[u32]) -> bool
    ensures { result ≡ has_long_runs s count numbers.now }
{
    if has_runs(s) {
        let runs = numbers.len() as u64 / 2;
        return count != runs;
    }
    false
}

// What self's numbers are, where no run is longer than a row.
fn numbers(s: Form) -> Numbers
    ensures { result ≡ numbers_of s }
{
    if has_runs(s) {
        return Numbers::Runs;
    }
    Numbers::List
}

// Route 4: self is a list, or runs, and the rank mask a list.
pub fn lay_at_ranks(s: Form, count: u64, srows: &[u32], rrows: &[u32], at: u64, out: &mut [u64])
    requires { Accepted (lent s [] srows.now) × (counts_as_list s ≡ true) × (count ≡ count_of (lent s [] srows.now))
        × Ascending 0 (count_of (lent s [] srows.now)) rrows.now × Room at (length_of s) out.old }
    ensures { out.new ≡ laid at (compose (rows_of (lent s [] srows.now)) (listed (count_of (lent s [] srows.now)) rrows.now)) out.old }
{
    let len = length_of(s);
    if has_long_runs(s, count, srows) {
        lay_entries_in_runs(srows, rrows, count, len, at, out);
        return;
    }
    lay_entry_at_rank(srows, numbers(s), rrows, len, at, out);
}

// Route 5: self is a list, or runs, and the rank mask words.
pub fn lay_if_set(
    s: Form,
    count: u64,
    srows: &[u32],
    rwords: &[u64],
    from: u64,
    at: u64,
    out: &mut [u64],
)
    requires { Accepted (lent s [] srows.now) × (counts_as_list s ≡ true) × (count ≡ count_of (lent s [] srows.now)) × (from ≤ 63)
        × (from + count_of (lent s [] srows.now) ≤ length rwords.now * 64) × Room at (length_of s) out.old }
    ensures { out.new ≡ laid at (compose (rows_of (lent s [] srows.now)) (drop from (bits_of_all 64 rwords.now))) out.old }
{
    let len = length_of(s);
    if has_long_runs(s, count, srows) {
        lay_ranks_under_runs(srows, rwords, from, len, at, out);
        return;
    }
    lay_entry_if_set(srows, numbers(s), rwords, from, len, at, out);
}

// Self is a list, or runs, and the rank mask runs.
pub fn keep_in_list(s: Form, count: u64, srows: &[u32], rruns: &[u32], at: u64, out: &mut [u64])
    requires { Accepted (lent s [] srows.now) × (counts_as_list s ≡ true) × (count ≡ count_of (lent s [] srows.now))
        × Apart 0 (count_of (lent s [] srows.now)) rruns.now × Room at (length_of s) out.old }
    ensures { out.new ≡ laid at (compose (rows_of (lent s [] srows.now)) (in_runs (count_of (lent s [] srows.now)) rruns.now)) out.old }
{
    let len = length_of(s);
    if has_long_runs(s, count, srows) {
        lay_runs_in_runs(srows, rruns, len, at, out);
        return;
    }
    lay_entries_by_runs(srows, numbers(s), rruns, len, at, out);
}
