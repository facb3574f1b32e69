// The closed forms of word deposit and extract: masks of at most two set bits, and of at most two clear bits.
ghost use Rattle.std.specs.Prelude.{◌≡◌, ◌/◌, ◌≤◌, count_ones};
ghost use Rattle.rows.specs.Pdep.{pdep, pext};
ghost use Rattle.network.specs.Lowest.{closed, past_hole, without_lowest};

use super::num::{any, if_odd, lowest};

// Deposit into the lowest two set bits of the mask.
pub fn deposit_two_lowest(source: u64, mask: u64) -> u64
    requires { count_ones mask ≤ 2 }
    ensures { result ≡ pdep 64 source mask }
{
    let first = lowest(mask);
    let rest = mask ^ first;
    let second = lowest(rest);
    if_odd(first, source) | if_odd(second, source >> 1)
}

// A source moved past a hole, and the holes that are left.
#[derive(Drop)]
pub struct Moved {
    pub source: u64,
    pub holes: u64,
}

// The source moved up by one from the lowest hole on; that hole is then filled.
pub fn past_hole(source: u64, holes: u64) -> Moved
    ensures { result ≡ record { source = past_hole 64 holes 0 source; holes = without_lowest 64 holes } }
{
    let hole = lowest(holes);
    let below = hole.wrapping_sub(1);
    Moved {
        source: (source & below) | ((source << 1) & !below),
        holes: holes ^ hole,
    }
}

// Deposit into a mask with at most two clear bits: the source moves up by one past each hole.
pub fn deposit_two_holes(source: u64, mask: u64) -> u64
    requires { 62 ≤ count_ones mask }
    ensures { result ≡ pdep 64 source mask }
{
    let once = past_hole(source, !mask);
    let twice = past_hole(once.source, once.holes);
    twice.source & mask
}

// Extract from the lowest two set bits of the mask: past the first there is at most one more.
pub fn extract_two_lowest(source: u64, mask: u64) -> u64
    requires { count_ones mask ≤ 2 }
    ensures { result ≡ pext 64 source mask }
{
    let first = lowest(mask);
    let second = mask ^ first;
    any(source & first) | (any(source & second) << 1)
}

// The source's bit at the lowest hole goes, and those above it move down by one; the holes above go with them.
pub fn close_hole(source: u64, holes: u64) -> Moved
    ensures { result ≡ record { source = closed 64 holes source; holes = without_lowest 64 holes / 2 } }
{
    let hole = lowest(holes);
    let below = hole.wrapping_sub(1);
    Moved {
        source: (source & below) | ((source >> 1) & !below),
        holes: (holes ^ hole) >> 1,
    }
}

// Extract from a mask with at most two clear bits: the source moves down by one past each hole.
pub fn extract_two_holes(source: u64, mask: u64) -> u64
    requires { 62 ≤ count_ones mask }
    ensures { result ≡ pext 64 source mask }
{
    let once = close_hole(source, !mask);
    let twice = close_hole(once.source, once.holes);
    twice.source
}
