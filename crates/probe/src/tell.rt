// What a call tells, and the one way to write it: every cell on every call.
ghost use Rattle.std.specs.Prelude.{◌≡◌, ◌≤◌, ◌<◌, length, IsTrue, Ok, Err};
ghost use Rattle.cells.specs.Probe.{answer_cells, enough, over, word_told, bad_told, answer_told, fed_told, recovery_fed_told, written_told, runs_told};

use cells::Told;
use laid::inner::copy_words;
use lines::Written;
use operand::inner::answers::summary_told;
use routes::inner::route_number;
use rows::Refusal;
use rows::inner::numbers::{numbers, row_of};
use rules::{Fed, RecoveryState, State, Summary};

// A cell that a call does not speak of is 0.
const NOTHING: Told = Told {
    refusal: 0,
    operand: 0,
    count: 0,
    route: 0,
    word: 0,
    done: 0,
    ranks: 0,
    kept: 0,
    outside: 0,
    number: 0,
    density: 0.0,
};

fn of_summary(summary: Summary) -> Told
    ensures { result ≡ answer_told (Ok summary) }
{
    Told {
        count: summary.count,
        route: u64::from(route_number(summary.route)),
        density: summary.density,
        ..NOTHING
    }
}

// With the row outside self that 17 has, and what is told of a refusal in place of a summary.
fn of_refusal(refusal: Refusal) -> Told
    ensures { result ≡ answer_told (Err refusal) }
{
    let (number, operand) = numbers(refusal);
    Told {
        refusal: u64::from(number),
        operand: u64::from(operand),
        outside: row_of(refusal.reason),
        ..of_summary(summary_told(Err(refusal)))
    }
}

// A word or a position, or its refusal, of which no row is told.
pub fn of_word(answer: Result<u64, Refusal>) -> Told
    ensures { result ≡ word_told answer }
{
    match answer {
        Ok(word) => Told { word, ..NOTHING },
        Err(refusal) => Told {
            outside: 0,
            ..of_refusal(refusal)
        },
    }
}

pub fn of_answer(answer: Result<Summary, Refusal>) -> Told
    ensures { result ≡ answer_told answer }
{
    match answer {
        Ok(summary) => of_summary(summary),
        Err(refusal) => of_refusal(refusal),
    }
}

// One for each stream, since a trait over the two states would be longer than what it saves.
pub fn of_fed(fed: Fed<State>) -> Told
    ensures { result ≡ fed_told fed }
{
    Told {
        done: fed.state.done.0,
        ranks: fed.state.ranks.0,
        kept: fed.state.kept,
        ..of_answer(fed.answer)
    }
}

pub fn of_recovery_fed(fed: Fed<RecoveryState>) -> Told
    ensures { result ≡ recovery_fed_told fed }
{
    Told {
        done: fed.state.done.0,
        ranks: fed.state.ranks.0,
        kept: fed.state.kept,
        ..of_answer(fed.answer)
    }
}

// The answer that the program's lines tell, and their length.
pub fn of_written(written: Written) -> Told
    ensures { result ≡ written_told written }
{
    Told {
        number: written.len as u64,
        ..of_answer(written.answer)
    }
}

// The answer of the writer of runs, and how many they are.
pub fn of_runs(written: Result<rules::Written, Refusal>) -> Told
    ensures { result ≡ runs_told written }
{
    match written {
        Ok(written) => Told {
            number: written.runs,
            ..of_summary(written.summary)
        },
        Err(refusal) => of_refusal(refusal),
    }
}

// A form that is none: 99, and nothing else is told.
pub fn of_bad_form() -> Told
    ensures { result ≡ bad_told }
{
    Told {
        refusal: 99,
        ..NOTHING
    }
}

// There is room for an answer: 16 cells and a density.
#[tactic(auto, unfolding(cells::specs::Probe::enough))]
pub fn ready(nans: usize, nden: usize) -> bool
    ensures test { result ≡ enough nans nden }
    ensures room { IsTrue result → (16 ≤ nans) × (0 < nden) }
{
    16 <= nans && 1 <= nden
}

pub fn tell(told: Told, ans: &mut [u64], den: &mut [f64])
    requires { (16 ≤ length ans.old) × (0 < length den.old) }
    ensures { answer_cells ans.new den.new ≡ over told (answer_cells ans.old den.old) }
{
    let cells = [
        told.refusal,
        told.operand,
        told.count,
        told.route,
        told.word,
        told.done,
        told.ranks,
        told.kept,
        0,
        0,
        told.outside,
        0,
        0,
        0,
        0,
        told.number,
    ];
    // By `copy_from_slice` the cells lay on the stack and were read back from there: a small call took up to 1.4 times as long.
    copy_words(&cells, 0, 16, ans);
    den[0] = told.density;
}
