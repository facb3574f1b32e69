// Self is words: route 6, and a rank mask that is runs.
ghost use Rattle.std.specs.Prelude.{◌≡◌, false};
ghost use Rattle.rows.specs.Rows.{compose};
ghost use Rattle.rows.specs.Runs.{in_runs, Apart};
ghost use Rattle.rows.specs.Laid.{laid};
ghost use Rattle.rows.specs.Asks.{Room};
ghost use Rattle.rules.specs.declared.Route.TheVariants.{MaskDriven};
ghost use Rattle.rules.specs.Operand.{lent, rows_of, length_of, count_of, Accepted};
ghost use Rattle.rules.specs.Compose.{Paired, result as composition};
ghost use Rattle.operand.specs.Flat.{has_runs};
ghost use Rattle.by_route.specs.Fits.{Fits, InWords};

use kept::inner::keep_words;
use marks::inner::{lay_driven_by_list, lay_driven_by_words};
use operand::inner::forms::{has_row_numbers, length_of, start_of};
use rules::Form;

// Route 6, for either form of the rank mask.
pub fn lay_mask_driven(
    s: Form,
    swords: &[u64],
    srows: &[u32],
    r: Form,
    rwords: &[u64],
    rrows: &[u32],
    at: u64,
    out: &mut [u64],
)
    requires { Paired (lent s swords.now srows.now) (lent r rwords.now rrows.now) × Fits MaskDriven (lent s swords.now srows.now) (lent r rwords.now rrows.now)
        × Room at (length_of s) out.old × (has_runs r ≡ false) }
    ensures { out.new ≡ laid at (composition (lent s swords.now srows.now) (lent r rwords.now rrows.now)) out.old }
{
    let len = length_of(s);
    let start = start_of(s);
    if has_row_numbers(r) {
        lay_driven_by_list(swords, start, len, rrows, at, out);
        return;
    }
    lay_driven_by_words(
        swords,
        start,
        len,
        rwords,
        start_of(r),
        length_of(r),
        at,
        out,
    );
}

// Self is words and the rank mask runs: of self what each run of ranks has is kept.
pub fn keep_in_words(
    s: Form,
    swords: &[u64],
    srows: &[u32],
    rruns: &[u32],
    at: u64,
    out: &mut [u64],
)
    requires { Accepted (lent s swords.now srows.now) × InWords (lent s swords.now srows.now)
        × Apart 0 (count_of (lent s swords.now srows.now)) rruns.now × Room at (length_of s) out.old }
    ensures { out.new ≡ laid at (compose (rows_of (lent s swords.now srows.now)) (in_runs (count_of (lent s swords.now srows.now)) rruns.now)) out.old }
{
    keep_words(swords, start_of(s), length_of(s), rruns, at, out);
}
