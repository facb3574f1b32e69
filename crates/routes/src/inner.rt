// The choice: document 01's route table in one place, its factors, and the number of a route.
ghost use Rattle.std.specs.Prelude.{◌≡◌, cond, ◌*◌, ◌≤◌, ltb};
ghost use Rattle.rules.specs.Operand.{length_of, counts_as_list};
ghost use Rattle.rules.specs.Route.{way_by, route_by, number_of, route_number, published};

use operand::inner::counts::{Counted, is_empty, is_full};
use operand::inner::forms::{counts_as_list, length_of};
use rows::Way;
use rules::{Factors, Form, Route};

// Document 01's factors.
pub fn document_factors() -> Factors
    ensures { result ≡ published }
{
    Factors {
        sparse: 16,
        driven: 32,
    }
}

// So few rows that the factor times their count is below the length. The product fits: a count is at most 2^20.
pub fn few(factor: u32, count: u64, length: u64) -> bool
    requires { count ≤ 1048576 }
    ensures { result ≡ ltb (factor * count) length }
{
    factor as u64 * count < length
}

pub fn number(route: Route) -> u8
    ensures { result ≡ number_of route }
{
    match route {
        Route::RankMask => 1,
        Route::SelfMask => 2,
        Route::NoRows => 3,
        Route::EntryAtRank => 4,
        Route::EntryIfSet => 5,
        Route::MaskDriven => 6,
        Route::Gathered(way) => match way {
            Way::Network => 7,
            Way::Loop => 8,
        },
        Route::Read(way) => match way {
            Way::Network => 9,
            Way::Loop => 10,
        },
    }
}

// As C callers and the program's lines have it: 0 where there is no route.
pub fn route_number(route: Option<Route>) -> u8
    ensures { result ≡ route_number route }
{
    match route {
        None => 0,
        Some(route) => number(route),
    }
}

// The loop form for a sparse self.
fn way(factors: Factors, s: Counted) -> Way
    requires { s.count ≤ 1048576 }
    ensures { result ≡ way_by factors s.form s.count }
{
    let form = s.form;
    if few(factors.sparse, s.count, length_of(form)) {
        return Way::Loop;
    }
    Way::Network
}

// Lines 4 and 5: self is a list, or runs.
fn list_route(r: Form) -> Route
    ensures { result ≡ cond (counts_as_list r) Route.EntryAtRank Route.EntryIfSet }
{
    if counts_as_list(r) {
        return Route::EntryAtRank;
    }
    Route::EntryIfSet
}

// Lines 6 to 10: self is words.
fn words_route(factors: Factors, s: Counted, r: Counted) -> Route
    requires { (s.count ≤ 1048576) × (r.count ≤ 1048576) }
    ensures { result ≡ cond (ltb (factors.driven * r.count) (length_of r.form)) Route.MaskDriven
        (cond (counts_as_list r.form) (Route.Gathered (way_by factors s.form s.count)) (Route.Read (way_by factors s.form s.count))) }
{
    let ranks = r.form;
    if few(factors.driven, r.count, length_of(ranks)) {
        return Route::MaskDriven;
    }
    let deposit = way(factors, s);
    if counts_as_list(ranks) {
        return Route::Gathered(deposit);
    }
    Route::Read(deposit)
}

// The first line of the table that fits.
pub fn choose_route(factors: Factors, s: Counted, r: Counted) -> Route
    requires { (s.count ≤ 1048576) × (r.count ≤ 1048576) }
    ensures { result ≡ route_by factors s.form s.count r.form r.count }
{
    if is_full(s) {
        return Route::RankMask;
    }
    if is_full(r) {
        return Route::SelfMask;
    }
    if is_empty(s) {
        return Route::NoRows;
    }
    if is_empty(r) {
        return Route::NoRows;
    }
    let form = s.form;
    if counts_as_list(form) {
        let ranks = r.form;
        return list_route(ranks);
    }
    words_route(factors, s, r)
}
