// Bytes as lower-case hexadecimal digits, two for each: read from a word, written into a lent buffer. Assumes nothing.
#![tactic(auto)]

ghost use Rattle.std.specs.Prelude.{[], ◌∷◌, ◌≡◌, true, ◌+◌, ◌*◌, ◌/◌, ◌≤◌, length};
ghost use Rattle.words.specs.Words.{put};
ghost use Rattle.hexadecimal.specs.Hex.{value_of, digit_value, digit_of, digits, all_digits, byte_of, bytes_of, count_read, bytes_read};
ghost use Rattle.hexadecimal.specs.Room.{Wrote};

// The value of a digit.
fn value(c: u8) -> Option<u8>
    ensures { result ≡ digit_value c }
{
    match c {
        b'0'..=b'9' => Some(c - b'0'),
        b'a'..=b'f' => Some(c - b'a' + 10),
        _ => None,
    }
}

// The digit of the low four bits.
fn digit(v: u8) -> u8
    ensures { result ≡ digit_of v }
{
    match v % 16 {
        low @ 0..=9 => b'0' + low,
        low => b'a' - 10 + low,
    }
}

// Whether every character of a word is a digit.
fn are_digits(word: &[u8]) -> bool
    ensures { result ≡ all_digits word.now }
{
    word.iter().all(|c| value(*c).is_some())
}

// The byte of two digits. `unwrap_or`, though neither is ever none: a loop without a way to fail is made into vectors.
fn byte(high: u8, low: u8) -> u8
    requires { (value_of high ≤ 15) × (value_of low ≤ 15) }
    ensures { result ≡ byte_of high low }
{
    16 * value(high).unwrap_or(0) + value(low).unwrap_or(0)
}

// Writes the bytes of a word of digits to the start of a buffer.
fn read_pairs(word: &[u8], out: &mut [u8])
    requires { (all_digits word.now ≡ true) × (length word.now / 2 ≤ length out.old) }
    ensures { out.new ≡ put out.old 0 (bytes_of word.now) }
{
    let (pairs, _) = word.as_chunks::<2>();
    for (i, [high, low]) in pairs.iter().enumerate() {
        out[i] = byte(*high, *low);
    }
}

// Reads the bytes of a word into a buffer. An odd number of digits, another character and a buffer that is too short are
// refused: then the buffer is as it was.
pub fn read(word: &[u8], out: &mut [u8]) -> Option<usize>
    ensures count { result ≡ count_read word.now out.old }
    ensures bytes { out.new ≡ bytes_read word.now out.old }
{
    let size = word.len() / 2;
    if word.len() % 2 != 0 || out.len() < size || !are_digits(word) {
        return None;
    }
    read_pairs(word, out);
    Some(size)
}

// Writes two digits for each byte at an offset.
fn write_pairs(out: &mut [u8], at: usize, bytes: &[u8])
    requires { at + 2 * length bytes.now ≤ length out.old }
    ensures { out.new ≡ put out.old at (digits bytes.now) }
{
    for (i, b) in bytes.iter().enumerate() {
        out[at + 2 * i] = digit(*b / 16);
        out[at + 2 * i + 1] = digit(*b);
    }
}

// Writes bytes in hexadecimal at an offset, and answers the offset behind them: the same, and nothing written, without room.
pub fn write(out: &mut [u8], at: usize, bytes: &[u8]) -> usize
    ensures { Wrote out.old at (digits bytes.now ∷ []) result out.new }
{
    if out.len() < at || (out.len() - at) / 2 < bytes.len() {
        return at;
    }
    write_pairs(out, at, bytes);
    at + 2 * bytes.len()
}
