// A flat boundary over every entry point: numbers and slices, and no struct. The crate probe_c exports the functions to C, and include/probe.h
// says what each cell of an answer means. Each function answers into ans and den, and does nothing at all where one of the two is too short.
#![tactic(auto)]

ghost use Rattle.std.specs.Prelude.{◌≡◌};
ghost use Rattle.rules.specs.Stream.{state_of};
ghost use Rattle.rules.specs.RecoverStream.{state_of as recovery_state_of};
ghost use Rattle.cells.specs.Probe.{answer_cells, tells, memory, does, given, form_of, deposit_told, select_told, read_told, to_words_done, to_list_done, to_runs_done, compose_done, sets_done, feed_done, recover_done, recover_feed_done, program_done};

use form::form_of;
use tell::{ready, tell};

mod call;
mod form;
mod tell;

// Word deposit: by way 0 the choice with the network, by any other the loop form.
pub fn probe_deposit(
    way: u64,
    source: u64,
    mask: u64,
    claimed: u64,
    ans: &mut [u64],
    den: &mut [f64],
)
    ensures { answer_cells ans.new den.new ≡ tells (deposit_told source mask claimed) (answer_cells ans.old den.old) }
{
    if !ready(ans.len(), den.len()) {
        return;
    }
    tell(call::deposit(way, source, mask, claimed), ans, den);
}

// Word select.
pub fn probe_select(word: u64, rank: u64, ans: &mut [u64], den: &mut [f64])
    ensures { answer_cells ans.new den.new ≡ tells (select_told word rank) (answer_cells ans.old den.old) }
{
    if !ready(ans.len(), den.len()) {
        return;
    }
    tell(call::select(word, rank), ans, den);
}

// Rank read: 64 bits of lent words.
pub fn probe_rank_read(words: &[u64], start: u64, offset: u64, ans: &mut [u64], den: &mut [f64])
    ensures { answer_cells ans.new den.new ≡ tells (read_told words.now start offset) (answer_cells ans.old den.old) }
{
    if !ready(ans.len(), den.len()) {
        return;
    }
    tell(call::rank_read(words, start, offset), ans, den);
}

// Any form to words.
pub fn probe_to_words(
    aform: u64,
    alength: u64,
    astart: u64,
    aclaimed: u64,
    awords: &[u64],
    arows: &[u32],
    out: &mut [u64],
    ans: &mut [u64],
    den: &mut [f64],
)
    ensures { memory out.new ans.new den.new
        ≡ does (to_words_done (given (form_of aform alength astart aclaimed) awords.now arows.now) out.old)
        (memory out.old ans.old den.old) }
{
    if !ready(ans.len(), den.len()) {
        return;
    }
    let a = form_of(aform, alength, astart, aclaimed);
    tell(call::to_words(a, awords, arows, out), ans, den);
}

// Any form to a list.
pub fn probe_to_list(
    aform: u64,
    alength: u64,
    astart: u64,
    aclaimed: u64,
    awords: &[u64],
    arows: &[u32],
    out: &mut [u32],
    ans: &mut [u64],
    den: &mut [f64],
)
    ensures { memory out.new ans.new den.new
        ≡ does (to_list_done (given (form_of aform alength astart aclaimed) awords.now arows.now) out.old)
        (memory out.old ans.old den.old) }
{
    if !ready(ans.len(), den.len()) {
        return;
    }
    let a = form_of(aform, alength, astart, aclaimed);
    tell(call::to_list(a, awords, arows, out), ans, den);
}

// Any form to runs: numbers in pairs, and how many runs they are.
pub fn probe_to_runs(
    aform: u64,
    alength: u64,
    astart: u64,
    aclaimed: u64,
    awords: &[u64],
    arows: &[u32],
    out: &mut [u32],
    ans: &mut [u64],
    den: &mut [f64],
)
    ensures { memory out.new ans.new den.new
        ≡ does (to_runs_done (given (form_of aform alength astart aclaimed) awords.now arows.now) out.old)
        (memory out.old ans.old den.old) }
{
    if !ready(ans.len(), den.len()) {
        return;
    }
    let a = form_of(aform, alength, astart, aclaimed);
    tell(call::to_runs(a, awords, arows, out), ans, den);
}

// Composition by rank: a is self, and b the rank mask.
pub fn probe_compose(
    aform: u64,
    alength: u64,
    astart: u64,
    aclaimed: u64,
    awords: &[u64],
    arows: &[u32],
    bform: u64,
    blength: u64,
    bstart: u64,
    bclaimed: u64,
    bwords: &[u64],
    brows: &[u32],
    out: &mut [u64],
    ans: &mut [u64],
    den: &mut [f64],
)
    ensures { memory out.new ans.new den.new
        ≡ does (compose_done (given (form_of aform alength astart aclaimed) awords.now arows.now) (given (form_of bform blength bstart bclaimed) bwords.now brows.now) out.old)
        (memory out.old ans.old den.old) }
{
    if !ready(ans.len(), den.len()) {
        return;
    }
    let a = form_of(aform, alength, astart, aclaimed);
    let b = form_of(bform, blength, bstart, bclaimed);
    tell(
        call::compose(a, awords, arows, b, bwords, brows, out),
        ans,
        den,
    );
}

// A set operation: 0 and, 1 or, 2 and-not, any other number not, which ignores b.
pub fn probe_set(
    which: u64,
    aform: u64,
    alength: u64,
    astart: u64,
    aclaimed: u64,
    awords: &[u64],
    arows: &[u32],
    bform: u64,
    blength: u64,
    bstart: u64,
    bclaimed: u64,
    bwords: &[u64],
    brows: &[u32],
    out: &mut [u64],
    ans: &mut [u64],
    den: &mut [f64],
)
    ensures { memory out.new ans.new den.new
        ≡ does (sets_done which (given (form_of aform alength astart aclaimed) awords.now arows.now) (given (form_of bform blength bstart bclaimed) bwords.now brows.now) out.old)
        (memory out.old ans.old den.old) }
{
    if !ready(ans.len(), den.len()) {
        return;
    }
    let a = form_of(aform, alength, astart, aclaimed);
    let b = form_of(bform, blength, bstart, bclaimed);
    tell(
        call::set(which, a, awords, arows, b, bwords, brows, out),
        ans,
        den,
    );
}

// One feed of a stream: the state's three numbers go in, and come back in the answer.
pub fn probe_feed(
    done: u64,
    ranks: u64,
    kept: u64,
    aform: u64,
    alength: u64,
    astart: u64,
    aclaimed: u64,
    awords: &[u64],
    arows: &[u32],
    bform: u64,
    blength: u64,
    bstart: u64,
    bclaimed: u64,
    bwords: &[u64],
    brows: &[u32],
    out: &mut [u64],
    ans: &mut [u64],
    den: &mut [f64],
)
    ensures { memory out.new ans.new den.new
        ≡ does (feed_done (state_of done ranks kept) (given (form_of aform alength astart aclaimed) awords.now arows.now) (given (form_of bform blength bstart bclaimed) bwords.now brows.now) out.old)
        (memory out.old ans.old den.old) }
{
    if !ready(ans.len(), den.len()) {
        return;
    }
    let a = form_of(aform, alength, astart, aclaimed);
    let b = form_of(bform, blength, bstart, bclaimed);
    tell(
        call::feed(done, ranks, kept, a, awords, arows, b, bwords, brows, out),
        ans,
        den,
    );
}

// Recovery: a is self, and b the mask of the rows that were kept.
pub fn probe_recover(
    aform: u64,
    alength: u64,
    astart: u64,
    aclaimed: u64,
    awords: &[u64],
    arows: &[u32],
    bform: u64,
    blength: u64,
    bstart: u64,
    bclaimed: u64,
    bwords: &[u64],
    brows: &[u32],
    out: &mut [u64],
    ans: &mut [u64],
    den: &mut [f64],
)
    ensures { memory out.new ans.new den.new
        ≡ does (recover_done (given (form_of aform alength astart aclaimed) awords.now arows.now) (given (form_of bform blength bstart bclaimed) bwords.now brows.now) out.old)
        (memory out.old ans.old den.old) }
{
    if !ready(ans.len(), den.len()) {
        return;
    }
    let a = form_of(aform, alength, astart, aclaimed);
    let b = form_of(bform, blength, bstart, bclaimed);
    tell(
        call::recover(a, awords, arows, b, bwords, brows, out),
        ans,
        den,
    );
}

// One feed of a recovery stream: the state's three numbers go in, and come back in the answer.
pub fn probe_recover_feed(
    done: u64,
    ranks: u64,
    kept: u64,
    aform: u64,
    alength: u64,
    astart: u64,
    aclaimed: u64,
    awords: &[u64],
    arows: &[u32],
    bform: u64,
    blength: u64,
    bstart: u64,
    bclaimed: u64,
    bwords: &[u64],
    brows: &[u32],
    out: &mut [u64],
    ans: &mut [u64],
    den: &mut [f64],
)
    ensures { memory out.new ans.new den.new
        ≡ does (recover_feed_done (recovery_state_of done ranks kept) (given (form_of aform alength astart aclaimed) awords.now arows.now) (given (form_of bform blength bstart bclaimed) bwords.now brows.now) out.old)
        (memory out.old ans.old den.old) }
{
    if !ready(ans.len(), den.len()) {
        return;
    }
    let a = form_of(aform, alength, astart, aclaimed);
    let b = form_of(bform, blength, bstart, bclaimed);
    tell(
        call::recover_feed(done, ranks, kept, a, awords, arows, b, bwords, brows, out),
        ans,
        den,
    );
}

// The program: its four lines into out, and the answer that they tell.
pub fn probe_program(input: &[u8], out: &mut [u8], ans: &mut [u64], den: &mut [f64])
    ensures { memory out.new ans.new den.new
        ≡ does (program_done input.now out.old) (memory out.old ans.old den.old) }
{
    if !ready(ans.len(), den.len()) {
        return;
    }
    tell(call::program(input, out), ans, den);
}
