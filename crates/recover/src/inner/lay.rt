// The recovery of two accepted masks laid over the output from any bit on: a kernel for two masks in words, one for each that is runs, which
// goes by runs, and one that goes by chunks for every other mix of forms.
ghost use Rattle.std.specs.Prelude.{◌≡◌, true};
ghost use Rattle.rows.specs.Laid.{laid};
ghost use Rattle.rows.specs.Asks.{Room};
ghost use Rattle.rules.specs.Operand.{lent, count_of};
ghost use Rattle.rules.specs.Recover.{Within, recovery};
ghost use Rattle.operand.specs.Counts.{Counts};
ghost use Rattle.operand.specs.Flat.{has_words};

use extracts::inner::{recover_chunks, recover_words};
use in_runs::inner::{recover_runs, recover_under_runs};
use operand::inner::counts::Counted;
use operand::inner::forms::{has_runs, has_words, length_of, start_of};
use rows::Way;
use rules::Form;

// The loop form for a self as sparse as the one for which the route table names deposit's. Both give the same.
fn way(set: u64, len: u64) -> Way {
    if set < len / 16 {
        return Way::Loop;
    }
    Way::Network
}

// The second mask in words.
fn lay_kept_words(
    s: Counted,
    swords: &[u64],
    srows: &[u32],
    k: Form,
    kwords: &[u64],
    krows: &[u32],
    at: u64,
    out: &mut [u64],
)
    requires { Within (lent s.form swords.now srows.now) (lent k kwords.now krows.now) × (has_words k ≡ true) × Counts s swords.now srows.now
        × Room at (count_of (lent s.form swords.now srows.now)) out.old }
    ensures { out.new ≡ laid at (recovery (lent s.form swords.now srows.now) (lent k kwords.now krows.now)) out.old }
{
    let own = s.form;
    let set = s.count;
    let len = length_of(own);
    let from = start_of(k);
    if has_words(own) {
        let start = start_of(own);
        recover_words(
            way(set, len),
            swords,
            start,
            len,
            set,
            kwords,
            from,
            at,
            out,
        );
        return;
    }
    if has_runs(own) {
        recover_under_runs(srows, kwords, from, len, at, out);
        return;
    }
    recover_chunks(own, set, swords, srows, k, kwords, krows, at, out);
}

// A bit for each of self's set rows, from bit at on.
pub fn lay_recovery(
    s: Counted,
    swords: &[u64],
    srows: &[u32],
    k: Form,
    kwords: &[u64],
    krows: &[u32],
    at: u64,
    out: &mut [u64],
)
    requires { Within (lent s.form swords.now srows.now) (lent k kwords.now krows.now) × Counts s swords.now srows.now × Room at (count_of (lent s.form swords.now srows.now)) out.old }
    ensures { out.new ≡ laid at (recovery (lent s.form swords.now srows.now) (lent k kwords.now krows.now)) out.old }
{
    let own = s.form;
    if has_words(k) {
        lay_kept_words(s, swords, srows, k, kwords, krows, at, out);
        return;
    }
    if has_runs(k) {
        recover_runs(own, s.count, swords, srows, krows, at, out);
        return;
    }
    recover_chunks(own, s.count, swords, srows, k, kwords, krows, at, out);
}
