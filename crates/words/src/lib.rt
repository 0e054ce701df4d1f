// Numbers of 32 bits in a slice of bytes, lowest byte first. A word is the unsigned value of four bytes; a signed number is in two's
// complement.
// Where std has no `From`, as to and from usize, a cast is `as`, which Rattle proves to lose nothing; `try_from` would have an error that cannot come.
// A word is a u64 in every signature, and not a u32: offsets and lengths are added as 64-bit numbers, and the wrong body `unsigned_zero` answers 2^32.
#![tactic(auto)]

ghost use Rattle.std.specs.Prelude.{◌≡◌, [], ◌∷◌, ◌+◌, ◌^◌, ◌≤◌, ◌<◌, length};
ghost use Rattle.std.specs.Int.Signed.{mag};
ghost use Rattle.words.specs.Word.{word, signed_word, signed_of, word_of};
ghost use Rattle.words.specs.Putting.{put, written};

// The word that starts at byte `at`.
pub fn read_u32(bytes: &[u8], at: usize) -> u64
    requires { at + 4 ≤ length bytes.now }
    ensures answer { result ≡ word bytes.now at }
    ensures range { result < 2 ^ 32 }
{
    u64::from(u32::from_le_bytes([bytes[at], bytes[at + 1], bytes[at + 2], bytes[at + 3]]))
}

// The number that a word stands for.
pub fn signed(word: u64) -> i64
    requires { word < 2 ^ 32 }
    ensures { result ≡ signed_of 4 word }
{
    i64::from((word as u32).cast_signed())
}

// The signed number that starts at byte `at`.
pub fn read_i32(bytes: &[u8], at: usize) -> i64
    requires { at + 4 ≤ length bytes.now }
    ensures { result ≡ signed_word bytes.now at }
{
    signed(read_u32(bytes, at))
}

// The word that stands for a number from -2^31 to 2^31 - 1, whose `mag` is below 2^31.
pub fn unsigned(value: i64) -> u64
    requires { mag value < 2 ^ 31 }
    ensures answer { result ≡ word_of value }
    ensures range { result < 2 ^ 32 }
{
    u64::from((value as i32).cast_unsigned())
}

// The four bytes of a word are stored from byte `at` on.
pub fn write_u32(bytes: &mut [u8], at: usize, word: u64)
    requires { (at + 4 ≤ length bytes.old) × (word < 2 ^ 32) }
    ensures { bytes.new ≡ put 4 bytes.old at word }
{
    bytes[at..at + 4].copy_from_slice(&(word as u32).to_le_bytes());
}

// The four bytes of a signed number are stored from byte `at` on.
pub fn write_i32(bytes: &mut [u8], at: usize, value: i64)
    requires { (at + 4 ≤ length bytes.old) × (mag value < 2 ^ 31) }
    ensures { bytes.new ≡ put 4 bytes.old at (word_of value) }
{
    write_u32(bytes, at, unsigned(value));
}

// Three words at the start of a slice: two numbers and a signed one, as links, commands and events have them.
pub fn write_triple(bytes: &mut [u8], first: usize, second: usize, value: i64)
    requires { (12 ≤ length bytes.old) × (first < 2 ^ 32) × (second < 2 ^ 32) × (mag value < 2 ^ 31) }
    ensures { bytes.new ≡ written (first ∷ second ∷ word_of value ∷ []) bytes.old }
{
    write_u32(bytes, 0, first as u64);
    write_u32(bytes, 4, second as u64);
    write_i32(bytes, 8, value);
}
