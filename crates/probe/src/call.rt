// Each entry point called, and what it answers as what is told. A form that is bad, of either operand, calls nothing.
ghost use Rattle.std.specs.Prelude.{◌≡◌};
ghost use Rattle.rows.specs.WordAnswer.{deposited};
ghost use Rattle.rules.specs.Operand.{lent};
ghost use Rattle.rules.specs.Stream.{state_of};
ghost use Rattle.rules.specs.RecoverStream.{state_of as recovery_state_of};
ghost use Rattle.cells.specs.Probe.{given, ended, deposit_told, select_told, read_told, to_words_done, to_list_done, to_runs_done, compose_done, set_done, sets_done, feed_done, recover_done, recover_feed_done, program_done, answer_told};

use super::tell::{of_answer, of_bad_form, of_fed, of_recovery_fed, of_runs, of_word, of_written};
use cells::Told;
use rows::{Rank, Refusal, Row, Way};
use rules::{Form, RecoveryState, State, Summary};

// By way 0 the choice with the network, by any other the loop form.
fn deposit_by(way: u64, source: u64, mask: u64, claimed: u64) -> Result<u64, Refusal>
    ensures { result ≡ deposited source mask claimed }
{
    if way == 0 {
        return word::deposit(source, mask, claimed);
    }
    word::inner::deposit_by(Way::Loop, source, mask, claimed)
}

pub fn deposit(way: u64, source: u64, mask: u64, claimed: u64) -> Told
    ensures { result ≡ deposit_told source mask claimed }
{
    of_word(deposit_by(way, source, mask, claimed))
}

pub fn select(word: u64, rank: u64) -> Told
    ensures { result ≡ select_told word rank }
{
    of_word(word::select(word, rank))
}

pub fn rank_read(words: &[u64], start: u64, offset: u64) -> Told
    ensures { result ≡ read_told words.now start offset }
{
    of_word(lent::rank_read(words, start, offset))
}

pub fn to_words(a: Option<Form>, awords: &[u64], arows: &[u32], out: &mut [u64]) -> Told
    ensures { ended result out.new ≡ to_words_done (given a awords.now arows.now) out.old }
{
    let Some(form) = a else {
        return of_bad_form();
    };
    of_answer(mask::to_words(form, awords, arows, out))
}

pub fn to_list(a: Option<Form>, awords: &[u64], arows: &[u32], out: &mut [u32]) -> Told
    ensures { ended result out.new ≡ to_list_done (given a awords.now arows.now) out.old }
{
    let Some(form) = a else {
        return of_bad_form();
    };
    of_answer(mask::to_list(form, awords, arows, out))
}

pub fn to_runs(a: Option<Form>, awords: &[u64], arows: &[u32], out: &mut [u32]) -> Told
    ensures { ended result out.new ≡ to_runs_done (given a awords.now arows.now) out.old }
{
    let Some(form) = a else {
        return of_bad_form();
    };
    of_runs(mask::to_runs(form, awords, arows, out))
}

pub fn compose(
    a: Option<Form>,
    awords: &[u64],
    arows: &[u32],
    b: Option<Form>,
    bwords: &[u64],
    brows: &[u32],
    out: &mut [u64],
) -> Told
    ensures { ended result out.new ≡ compose_done (given a awords.now arows.now) (given b bwords.now brows.now) out.old }
{
    let (Some(s), Some(r)) = (a, b) else {
        return of_bad_form();
    };
    of_answer(intersect_by_rank::intersect_by_rank(s, awords, arows, r, bwords, brows, out))
}

// By 0 and, by 1 or, by 2 and-not, by any other number not, which ignores b.
#[tactic(auto, unfolding(cells::specs::Probe::set_done))]
fn set_operation(
    which: u64,
    a: Form,
    awords: &[u64],
    arows: &[u32],
    b: Form,
    bwords: &[u64],
    brows: &[u32],
    out: &mut [u64],
) -> Result<Summary, Refusal>
    ensures { ended (answer_told result) out.new ≡ set_done which (lent a awords.now arows.now) (lent b bwords.now brows.now) out.old }
{
    match which {
        0 => bitops::and(a, awords, arows, b, bwords, brows, out),
        1 => bitops::or(a, awords, arows, b, bwords, brows, out),
        2 => bitops::and_not(a, awords, arows, b, bwords, brows, out),
        _ => bitops::not(a, awords, arows, out),
    }
}

pub fn set(
    which: u64,
    a: Option<Form>,
    awords: &[u64],
    arows: &[u32],
    b: Option<Form>,
    bwords: &[u64],
    brows: &[u32],
    out: &mut [u64],
) -> Told
    ensures { ended result out.new ≡ sets_done which (given a awords.now arows.now) (given b bwords.now brows.now) out.old }
{
    let (Some(f), Some(g)) = (a, b) else {
        return of_bad_form();
    };
    of_answer(set_operation(which, f, awords, arows, g, bwords, brows, out))
}

// From the state of these three numbers.
pub fn feed(
    done: u64,
    ranks: u64,
    kept: u64,
    a: Option<Form>,
    awords: &[u64],
    arows: &[u32],
    b: Option<Form>,
    bwords: &[u64],
    brows: &[u32],
    out: &mut [u64],
) -> Told
    ensures { ended result out.new ≡ feed_done (state_of done ranks kept) (given a awords.now arows.now) (given b bwords.now brows.now) out.old }
{
    let (Some(s), Some(r)) = (a, b) else {
        return of_bad_form();
    };
    let state = State {
        done: Row(done),
        ranks: Rank(ranks),
        kept,
    };
    of_fed(composer::feed(state, s, awords, arows, r, bwords, brows, out))
}

pub fn recover(
    a: Option<Form>,
    awords: &[u64],
    arows: &[u32],
    b: Option<Form>,
    bwords: &[u64],
    brows: &[u32],
    out: &mut [u64],
) -> Told
    ensures { ended result out.new ≡ recover_done (given a awords.now arows.now) (given b bwords.now brows.now) out.old }
{
    let (Some(s), Some(k)) = (a, b) else {
        return of_bad_form();
    };
    of_answer(recover::recover(s, awords, arows, k, bwords, brows, out))
}

// From recovery's state of these three numbers.
pub fn recover_feed(
    done: u64,
    ranks: u64,
    kept: u64,
    a: Option<Form>,
    awords: &[u64],
    arows: &[u32],
    b: Option<Form>,
    bwords: &[u64],
    brows: &[u32],
    out: &mut [u64],
) -> Told
    ensures { ended result out.new ≡ recover_feed_done (recovery_state_of done ranks kept) (given a awords.now arows.now) (given b bwords.now brows.now) out.old }
{
    let (Some(s), Some(k)) = (a, b) else {
        return of_bad_form();
    };
    let state = RecoveryState {
        done: Row(done),
        ranks: Rank(ranks),
        kept,
    };
    of_recovery_fed(recoverer::feed(state, s, awords, arows, k, bwords, brows, out))
}

pub fn program(input: &[u8], out: &mut [u8]) -> Told
    ensures { ended result out.new ≡ program_done input.now out.old }
{
    of_written(text::answer(input, out))
}
