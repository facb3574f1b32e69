// One bit of a word, a word where a bit is set, and whether a word has any.
ghost use Rattle.std.specs.Prelude.{◌≡◌, ◌*◌, ◌%◌, min};
ghost use Rattle.network.specs.Lowest.{lowest_set};

// The lowest set bit of x, by itself; 0 where none is set.
pub fn lowest(x: u64) -> u64
    ensures { result ≡ lowest_set 64 x }
{
    x & x.wrapping_neg()
}

// x where bit 0 of b is set, and else 0.
pub fn if_odd(x: u64, b: u64) -> u64
    ensures { result ≡ x * (b % 2) }
{
    x & (b & 1).wrapping_neg()
}

// 1 where a bit of x is set, and else 0.
pub fn any(x: u64) -> u64
    ensures { result ≡ min x 1 }
{
    u64::from(x != 0)
}
