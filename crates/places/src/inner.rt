// What our own crates call of the table: its entry at a byte and a rank.
ghost use Rattle.std.specs.Prelude.{◌≡◌, ◌<◌};
ghost use Rattle.rows.specs.Word.{bits_of};
ghost use Rattle.rows.specs.Lists.{select};

use super::table::places_of;

// The place of the byte's set bit that has the rank, and 8 where there is none.
pub fn place_in(byte: u32, rank: u32) -> u32
    requires { (byte < 256) × (rank < 8) }
    ensures { result ≡ select (bits_of 8 byte) rank }
{
    ((places_of(byte) >> (8 * rank)) % 256) as u32
}
