// The numbers that bytes write: big-endian, signed ones in two's complement.
#![tactic(auto)]

ghost use Rattle.std.specs.Prelude.{◌≡◌};
ghost use Rattle.numerals.specs.Numbers.{two_bytes, four_bytes, signed_byte, signed_word};

// One byte as a signed number.
pub fn signed_byte(b: u8) -> i8
    ensures { result ≡ signed_byte b }
{
    i8::from_be_bytes([b])
}

// Two bytes, the higher first.
pub fn unsigned_short(a: u8, b: u8) -> u16
    ensures { result ≡ two_bytes a b }
{
    u16::from_be_bytes([a, b])
}

// Four bytes, the highest first.
pub fn unsigned_word(a: u8, b: u8, c: u8, d: u8) -> u32
    ensures { result ≡ four_bytes a b c d }
{
    u32::from_be_bytes([a, b, c, d])
}

// Four bytes as a signed number.
pub fn signed_word(a: u8, b: u8, c: u8, d: u8) -> i32
    ensures { result ≡ signed_word a b c d }
{
    i32::from_be_bytes([a, b, c, d])
}
