// What the query daemon links, as a C library: the functions of the crate host under the same names. include/boltamber.h declares both.
#![tactic(auto)]

ghost use Rattle.std.specs.Prelude.{◌≡◌};
ghost use Rattle.rows.specs.Word.{bits_of};
ghost use Rattle.rows.specs.Lists.{select};
ghost use Rattle.rows.specs.Pdep.{pdep};

// Deposit by the mask's own count: it never refuses.
#[unsafe(no_mangle)]
pub extern "C" fn boltamber_deposit(source: u64, mask: u64) -> u64
    ensures { result ≡ pdep 64 source mask }
{
    host::boltamber_deposit(source, mask)
}

// The position of the set bit that has the rank, and 64 where refusal 9 holds: the rank is not below the word's set bits.
// Below 64 the walk over the bytes finds that out, with no count of the whole word.
#[unsafe(no_mangle)]
pub extern "C" fn boltamber_select(word: u64, rank: u64) -> u64
    ensures { result ≡ select (bits_of 64 word) rank }
{
    host::boltamber_select(word, rank)
}
