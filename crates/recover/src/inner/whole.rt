// A whole recovery that is accepted: its rows written from the start on, and its summary.
ghost use Rattle.std.specs.Prelude.{◌≡◌, ◌≤◌, length};
ghost use Rattle.rows.specs.Laid.{words_for, written};
ghost use Rattle.rules.specs.Operand.{lent, count_of};
ghost use Rattle.rules.specs.Recover.{Within, recovery};
ghost use Rattle.rules.specs.Answer.{summed, no_route};
ghost use Rattle.operand.specs.Counts.{Counts};

use super::lay::lay_recovery;
use laid::inner::clear_last;
use operand::inner::answers::accepted;
use operand::inner::counts::Counted;
use rules::Summary;

// As many ranks are set as the second mask has rows.
pub fn recover_within(
    s: Counted,
    swords: &[u64],
    srows: &[u32],
    k: Counted,
    kwords: &[u64],
    krows: &[u32],
    out: &mut [u64],
) -> Summary
    requires { Within (lent s.form swords.now srows.now) (lent k.form kwords.now krows.now)
        × Counts s swords.now srows.now × Counts k kwords.now krows.now × (words_for (count_of (lent s.form swords.now srows.now)) ≤ length out.old) }
    ensures { (result ≡ summed (recovery (lent s.form swords.now srows.now) (lent k.form kwords.now krows.now)) no_route)
        × (out.new ≡ written (count_of (lent s.form swords.now srows.now)) (recovery (lent s.form swords.now srows.now) (lent k.form kwords.now krows.now)) out.old) }
{
    let other = k.form;
    let set = s.count;
    clear_last(out, set);
    lay_recovery(s, swords, srows, other, kwords, krows, 0, out);
    accepted(k.count, None, set)
}
