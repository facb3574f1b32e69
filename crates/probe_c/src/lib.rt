// A flat C boundary over every entry point: the functions of the crate probe under the same names. include/probe.h declares them.
#![tactic(auto)]

ghost use Rattle.std.specs.Prelude.{◌≡◌};
ghost use Rattle.rules.specs.Stream.{state_of};
ghost use Rattle.rules.specs.RecoverStream.{state_of as recovery_state_of};
ghost use Rattle.cells.specs.Probe.{answer_cells, tells, memory, does, given, form_of, deposit_told, select_told, read_told, to_words_done, to_list_done, to_runs_done, compose_done, sets_done, feed_done, recover_done, recover_feed_done, program_done};

// Word deposit: by way 0 the choice with the network, by any other the loop form.
#[unsafe(no_mangle)]
pub extern "C" fn probe_deposit(
    way: u64,
    source: u64,
    mask: u64,
    claimed: u64,
    ans: &mut [u64],
    den: &mut [f64],
)
    ensures { answer_cells ans.new den.new ≡ tells (deposit_told source mask claimed) (answer_cells ans.old den.old) }
{
    probe::probe_deposit(way, source, mask, claimed, ans, den);
}

// Word select.
#[unsafe(no_mangle)]
pub extern "C" fn probe_select(word: u64, rank: u64, ans: &mut [u64], den: &mut [f64])
    ensures { answer_cells ans.new den.new ≡ tells (select_told word rank) (answer_cells ans.old den.old) }
{
    probe::probe_select(word, rank, ans, den);
}

// Rank read: 64 bits of lent words.
#[unsafe(no_mangle)]
pub extern "C" fn probe_rank_read(
    words: &[u64],
    start: u64,
    offset: u64,
    ans: &mut [u64],
    den: &mut [f64],
)
    ensures { answer_cells ans.new den.new ≡ tells (read_told words.now start offset) (answer_cells ans.old den.old) }
{
    probe::probe_rank_read(words, start, offset, ans, den);
}

// Any form to words.
#[unsafe(no_mangle)]
pub extern "C" fn probe_to_words(
    aform: u64,
    alength: u64,
    astart: u64,
    aclaimed: u64,
    awords: &[u64],
    arows: &[u32],
    out: &mut [u64],
    ans: &mut [u64],
    den: &mut [f64],
)
    ensures { memory out.new ans.new den.new
        ≡ does (to_words_done (given (form_of aform alength astart aclaimed) awords.now arows.now) out.old)
        (memory out.old ans.old den.old) }
{
    probe::probe_to_words(
        aform, alength, astart, aclaimed, awords, arows, out, ans, den,
    );
}

// Any form to a list.
#[unsafe(no_mangle)]
pub extern "C" fn probe_to_list(
    aform: u64,
    alength: u64,
    astart: u64,
    aclaimed: u64,
    awords: &[u64],
    arows: &[u32],
    out: &mut [u32],
    ans: &mut [u64],
    den: &mut [f64],
)
    ensures { memory out.new ans.new den.new
        ≡ does (to_list_done (given (form_of aform alength astart aclaimed) awords.now arows.now) out.old)
        (memory out.old ans.old den.old) }
{
    probe::probe_to_list(
        aform, alength, astart, aclaimed, awords, arows, out, ans, den,
    );
}

// Any form to runs: numbers in pairs, and how many runs they are.
#[unsafe(no_mangle)]
pub extern "C" fn probe_to_runs(
    aform: u64,
    alength: u64,
    astart: u64,
    aclaimed: u64,
    awords: &[u64],
    arows: &[u32],
    out: &mut [u32],
    ans: &mut [u64],
    den: &mut [f64],
)
    ensures { memory out.new ans.new den.new
        ≡ does (to_runs_done (given (form_of aform alength astart aclaimed) awords.now arows.now) out.old)
        (memory out.old ans.old den.old) }
{
    probe::probe_to_runs(
        aform, alength, astart, aclaimed, awords, arows, out, ans, den,
    );
}

// Composition by rank: a is self, and b the rank mask.
#[unsafe(no_mangle)]
pub extern "C" fn probe_compose(
    aform: u64,
    alength: u64,
    astart: u64,
    aclaimed: u64,
    awords: &[u64],
    arows: &[u32],
    bform: u64,
    blength: u64,
    bstart: u64,
    bclaimed: u64,
    bwords: &[u64],
    brows: &[u32],
    out: &mut [u64],
    ans: &mut [u64],
    den: &mut [f64],
)
    ensures { memory out.new ans.new den.new
        ≡ does (compose_done (given (form_of aform alength astart aclaimed) awords.now arows.now) (given (form_of bform blength bstart bclaimed) bwords.now brows.now) out.old)
        (memory out.old ans.old den.old) }
{
    probe::probe_compose(
        aform, alength, astart, aclaimed, awords, arows, bform, blength, bstart, bclaimed, bwords,
        brows, out, ans, den,
    );
}

// A set operation: 0 and, 1 or, 2 and-not, any other number not, which ignores b.
#[unsafe(no_mangle)]
pub extern "C" fn probe_set(
    which: u64,
    aform: u64,
    alength: u64,
    astart: u64,
    aclaimed: u64,
    awords: &[u64],
    arows: &[u32],
    bform: u64,
    blength: u64,
    bstart: u64,
    bclaimed: u64,
    bwords: &[u64],
    brows: &[u32],
    out: &mut [u64],
    ans: &mut [u64],
    den: &mut [f64],
)
    ensures { memory out.new ans.new den.new
        ≡ does (sets_done which (given (form_of aform alength astart aclaimed) awords.now arows.now) (given (form_of bform blength bstart bclaimed) bwords.now brows.now) out.old)
        (memory out.old ans.old den.old) }
{
    probe::probe_set(
        which, aform, alength, astart, aclaimed, awords, arows, bform, blength, bstart, bclaimed,
        bwords, brows, out, ans, den,
    );
}

// One feed of a stream: the state's three numbers go in, and come back in the answer.
#[unsafe(no_mangle)]
pub extern "C" fn probe_feed(
    done: u64,
    ranks: u64,
    kept: u64,
    aform: u64,
    alength: u64,
    astart: u64,
    aclaimed: u64,
    awords: &[u64],
    arows: &[u32],
    bform: u64,
    blength: u64,
    bstart: u64,
    bclaimed: u64,
    bwords: &[u64],
    brows: &[u32],
    out: &mut [u64],
    ans: &mut [u64],
    den: &mut [f64],
)
    ensures { memory out.new ans.new den.new
        ≡ does (feed_done (state_of done ranks kept) (given (form_of aform alength astart aclaimed) awords.now arows.now) (given (form_of bform blength bstart bclaimed) bwords.now brows.now) out.old)
        (memory out.old ans.old den.old) }
{
    probe::probe_feed(
        done, ranks, kept, aform, alength, astart, aclaimed, awords, arows, bform, blength, bstart,
        bclaimed, bwords, brows, out, ans, den,
    );
}

// Recovery: a is self, and b the mask of the rows that were kept.
#[unsafe(no_mangle)]
pub extern "C" fn probe_recover(
    aform: u64,
    alength: u64,
    astart: u64,
    aclaimed: u64,
    awords: &[u64],
    arows: &[u32],
    bform: u64,
    blength: u64,
    bstart: u64,
    bclaimed: u64,
    bwords: &[u64],
    brows: &[u32],
    out: &mut [u64],
    ans: &mut [u64],
    den: &mut [f64],
)
    ensures { memory out.new ans.new den.new
        ≡ does (recover_done (given (form_of aform alength astart aclaimed) awords.now arows.now) (given (form_of bform blength bstart bclaimed) bwords.now brows.now) out.old)
        (memory out.old ans.old den.old) }
{
    probe::probe_recover(
        aform, alength, astart, aclaimed, awords, arows, bform, blength, bstart, bclaimed, bwords,
        brows, out, ans, den,
    );
}

// One feed of a recovery stream: the state's three numbers go in, and come back in the answer.
#[unsafe(no_mangle)]
pub extern "C" fn probe_recover_feed(
    done: u64,
    ranks: u64,
    kept: u64,
    aform: u64,
    alength: u64,
    astart: u64,
    aclaimed: u64,
    awords: &[u64],
    arows: &[u32],
    bform: u64,
    blength: u64,
    bstart: u64,
    bclaimed: u64,
    bwords: &[u64],
    brows: &[u32],
    out: &mut [u64],
    ans: &mut [u64],
    den: &mut [f64],
)
    ensures { memory out.new ans.new den.new
        ≡ does (recover_feed_done (recovery_state_of done ranks kept) (given (form_of aform alength astart aclaimed) awords.now arows.now) (given (form_of bform blength bstart bclaimed) bwords.now brows.now) out.old)
        (memory out.old ans.old den.old) }
{
    probe::probe_recover_feed(
        done, ranks, kept, aform, alength, astart, aclaimed, awords, arows, bform, blength, bstart,
        bclaimed, bwords, brows, out, ans, den,
    );
}

// The program: its four lines into out, and the answer that they tell.
#[unsafe(no_mangle)]
pub extern "C" fn probe_program(input: &[u8], out: &mut [u8], ans: &mut [u64], den: &mut [f64])
    ensures { memory out.new ans.new den.new
        ≡ does (program_done input.now out.old) (memory out.old ans.old den.old) }
{
    probe::probe_program(input, out, ans, den);
}
