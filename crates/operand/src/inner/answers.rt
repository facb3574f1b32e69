// A summary is made here, and nowhere else: of an accepted input, and what is told of a refused one.
ghost use Rattle.std.specs.Prelude.{◌≡◌, ◌≤◌};
ghost use Rattle.rules.specs.Answer.{density_of, summary, accepted, summary_told};

use rows::Refusal;
use rules::{Route, Summary};

// The quotient of count and length: one division of two numbers that the format holds, and 0.0 at length 0.
pub fn density(count: u64, length: u64) -> f64
    requires { (count ≤ 1048576) × (length ≤ 1048576) }
    ensures { result ≡ density_of count length }
{
    if length == 0 {
        return 0.0;
    }
    (count as f64) / (length as f64)
}

fn summary(count: u64, route: Option<Route>, density: f64) -> Summary
    ensures { result ≡ summary count route density }
{
    Summary {
        count,
        route,
        density,
    }
}

// The summary of an accepted input: so many set rows among so many, by this route.
pub fn accepted(count: u64, route: Option<Route>, length: u64) -> Summary
    requires { (count ≤ 1048576) × (length ≤ 1048576) }
    ensures { result ≡ accepted count route length }
{
    summary(count, route, density(count, length))
}

// What is told of an answer in numbers: of a refusal count 0, no route and density 0.0.
pub fn summary_told(answer: Result<Summary, Refusal>) -> Summary
    ensures { result ≡ summary_told answer }
{
    match answer {
        Ok(summary) => summary,
        Err(_) => summary(0, None, 0.0),
    }
}
