//! Numbers in four bytes, so that room can be left for one before it is known.
ghost use Rattle.std.specs.Prelude.{◌≡◌, ℕ, ◌^◌, ◌<◌};
ghost use Rattle.wire_varint.specs.Reading.{joined};
ghost use Rattle.wire_varint.specs.Varint.{redundant};

/// The varint of four bytes of `value`.
#[tactic(auto, unfolding(crate::specs::Varint::redundant))]
pub fn put_redundant(value: u32) -> [u8; 4]
    requires { value < 2 ^ 28 }
    ensures bytes { result ≡ redundant value }
    ensures read_again { joined result ≡ value }
{
    [
        128 + (value % 128) as u8,
        128 + (value / 128 % 128) as u8,
        128 + (value / 16384 % 128) as u8,
        (value / 2097152) as u8,
    ]
}

/// The number that the low seven bits of the four bytes join to, whatever their high bits.
pub fn get_redundant(bytes: [u8; 4]) -> u32
    ensures value { result ≡ joined bytes }
    ensures below { result < 2 ^ 28 }
{
    let [first, second, third, fourth] = bytes;
    u32::from(first % 128)
        + 128 * u32::from(second % 128)
        + 16384 * u32::from(third % 128)
        + 2097152 * u32::from(fourth % 128)
}
