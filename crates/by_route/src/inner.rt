// The composition of two accepted operands laid over the output from any bit on, by a route of the table.
ghost use Rattle.std.specs.Prelude.{◌≡◌, true, false, ◌⊎◌};
ghost use Rattle.rows.specs.Rows.{compose};
ghost use Rattle.rows.specs.Runs.{in_runs, Apart};
ghost use Rattle.rows.specs.Laid.{laid};
ghost use Rattle.rows.specs.Asks.{Room};
ghost use Rattle.rules.specs.Operand.{lent, rows_of, length_of, count_of, counts_as_list, Accepted};
ghost use Rattle.rules.specs.Compose.{Paired, result as composition};
ghost use Rattle.by_route.specs.Fits.{Fits, InWords, keeps_runs};

use super::lists::{keep_in_list, lay_at_ranks, lay_if_set};
use super::words::{keep_in_words, lay_mask_driven};
use deposits::inner::{intersect_bit_buffer_by_rank_indices, intersect_bit_buffers};
use laid::inner::clear;
use mask::inner::lay::lay_rows;
use operand::inner::forms::{counts_as_list, has_runs, length_of, start_of};
use rules::{Form, Route};

// The composition of two accepted operands laid from bit at on: each route by its own kernel, where no runs of a rank mask are kept.
fn compose_at(
    route: Route,
    s: Form,
    swords: &[u64],
    srows: &[u32],
    r: Form,
    rwords: &[u64],
    rrows: &[u32],
    at: u64,
    out: &mut [u64],
)
    requires { Paired (lent s swords.now srows.now) (lent r rwords.now rrows.now) × Fits route (lent s swords.now srows.now) (lent r rwords.now rrows.now)
        × Room at (length_of s) out.old × (keeps_runs route r ≡ false) }
    ensures { out.new ≡ laid at (composition (lent s swords.now srows.now) (lent r rwords.now rrows.now)) out.old }
{
    let len = length_of(s);
    let start = start_of(s);
    let from = start_of(r);
    match route {
        Route::RankMask => lay_rows(r, rwords, rrows, at, out),
        Route::SelfMask => lay_rows(s, swords, srows, at, out),
        Route::NoRows => clear(out, at, len),
        Route::EntryAtRank => lay_at_ranks(s, length_of(r), srows, rrows, at, out),
        Route::EntryIfSet => lay_if_set(s, length_of(r), srows, rwords, from, at, out),
        Route::MaskDriven => lay_mask_driven(s, swords, srows, r, rwords, rrows, at, out),
        Route::Gathered(way) => intersect_bit_buffer_by_rank_indices(
            way, swords, start, len, rrows, at, out,
        ),
        Route::Read(way) => intersect_bit_buffers(way, swords, start, len, rwords, from, at, out),
    }
}

// The rank mask is runs that are to be kept, on routes 4 to 8: where self or the rank mask is full or empty there is less to do.
fn keeps_runs(route: Route, r: Form) -> bool
    ensures { result ≡ keeps_runs route r }
{
    match route {
        Route::RankMask => false,
        Route::SelfMask => false,
        Route::NoRows => false,
        Route::EntryAtRank => has_runs(r),
        Route::EntryIfSet => has_runs(r),
        Route::MaskDriven => has_runs(r),
        Route::Gathered(_) => has_runs(r),
        Route::Read(_) => has_runs(r),
    }
}

// The rank mask is runs: a kernel for each form of self.
fn keep_ranks(
    s: Form,
    count: u64,
    swords: &[u64],
    srows: &[u32],
    rruns: &[u32],
    at: u64,
    out: &mut [u64],
)
    requires { Accepted (lent s swords.now srows.now) × (count ≡ count_of (lent s swords.now srows.now)) × ((counts_as_list s ≡ true) ⊎ InWords (lent s swords.now srows.now))
        × Apart 0 (count_of (lent s swords.now srows.now)) rruns.now × Room at (length_of s) out.old }
    ensures { out.new ≡ laid at (compose (rows_of (lent s swords.now srows.now)) (in_runs (count_of (lent s swords.now srows.now)) rruns.now)) out.old }
{
    if counts_as_list(s) {
        keep_in_list(s, count, srows, rruns, at, out);
        return;
    }
    keep_in_words(s, swords, srows, rruns, at, out);
}

// The composition of two accepted operands laid from bit at on, whatever their forms are.
pub fn lay_by_route(
    route: Route,
    s: Form,
    swords: &[u64],
    srows: &[u32],
    r: Form,
    rwords: &[u64],
    rrows: &[u32],
    at: u64,
    out: &mut [u64],
)
    requires { Paired (lent s swords.now srows.now) (lent r rwords.now rrows.now) × Fits route (lent s swords.now srows.now) (lent r rwords.now rrows.now)
        × Room at (length_of s) out.old }
    ensures { out.new ≡ laid at (composition (lent s swords.now srows.now) (lent r rwords.now rrows.now)) out.old }
{
    if keeps_runs(route, r) {
        keep_ranks(s, length_of(r), swords, srows, rrows, at, out);
        return;
    }
    compose_at(route, s, swords, srows, r, rwords, rrows, at, out);
}
