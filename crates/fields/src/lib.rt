// The words of a line, read and written: numbers, lists of numbers, bytes in hexadecimal. Assumes nothing.
#![tactic(auto)]

ghost use Rattle.std.specs.Prelude.{[], ◌∷◌, ◌≡◌, suc, ◌+◌, ◌-◌, ◌≤◌, length, take, drop};
ghost use Rattle.hexadecimal.specs.Room.{Wrote};
ghost use Rattle.text.specs.Text.{decimal};
ghost use Rattle.fields.specs.Fields.{before, word_of, separators, decimal_value, number_of};
ghost use Rattle.fields.specs.Fields.{none_word, bytes_count, bytes_after, bytes_word};
ghost use Rattle.fields.specs.Fields.{list_in, count_of, list_after, list_texts, more_texts};

// How many bytes stand before the first separator.
fn before_first(line: &[u8], separator: u8) -> usize
    ensures place { result ≡ before separator line.now }
    ensures within { result ≤ length line.now }
{
    line.iter()
        .position(|c| *c == separator)
        .unwrap_or(line.len())
}

// The place of the next separator from an offset on, or the end of the line.
pub fn end_of(line: &[u8], from: usize, separator: u8) -> usize
    ensures place { result ≡ from + before separator (drop from line.now) }
    ensures within { (from ≤ result) × (result ≤ from + (length line.now - from)) }
{
    match line.get(from..) {
        Some(rest) => from + before_first(rest, separator),
        None => from,
    }
}

// How many words a line has: one more than it has spaces. By a loop, which is made into vectors; `filter` and `count` are not.
pub fn words_in(line: &[u8]) -> usize
    ensures { result ≡ suc (separators 32 line.now) }
{
    let mut n = 1;
    for c in line {
        n += usize::from(*c == b' ');
    }
    n
}

// Where a word begins, the first being word 0; the end of the line for a word past the last.
fn start_of(line: &[u8], index: usize) -> usize
    ensures place { word_of 0 (drop result line.now) ≡ word_of index line.now }
    ensures within { result ≤ length line.now }
{
    let mut from = 0;
    for _ in 0..index {
        let end = end_of(line, from, b' ');
        if line.len() <= end {
            return line.len();
        }
        from = end + 1;
    }
    from
}

// A word of a line, the first being word 0. It is empty between two spaces, and past the last word.
pub fn word(line: &[u8], index: usize) -> &[u8]
    ensures { result.now ≡ word_of index line.now }
{
    let from = start_of(line, index);
    let end = end_of(line, from, b' ');
    &line[from..end]
}

// The first entries of a slice, or all of it where it is shorter.
pub fn first<T>(items: &[T], count: usize) -> &[T]
    ensures { result.now ≡ take count items.now }
{
    items.get(..count).unwrap_or(items)
}

// The value of a decimal digit.
fn digit(c: u8) -> Option<u64>
    ensures { result ≡ decimal_value c }
{
    match c {
        b'0'..=b'9' => Some(u64::from(c - b'0')),
        _ => None,
    }
}

// The number of a word of decimal digits, at most `most`. No digits, another character and a larger number are refused.
pub fn number(word: &[u8], most: u32) -> Option<u64>
    ensures { result ≡ number_of most word.now }
{
    if word.is_empty() {
        return None;
    }
    let mut n = 0;
    for c in word {
        n = n * 10 + digit(*c)?;
        if u64::from(most) < n {
            return None;
        }
    }
    Some(n)
}

// Whether a word is the one that stands for nothing at all.
fn is_none(word: &[u8]) -> bool
    ensures { result ≡ none_word word.now }
{
    matches!(word, [b'-'])
}

// Reads a list of 16-bit numbers, parted by single commas, into a buffer. What is no list, or has no room, is refused.
pub fn list(word: &[u8], out: &mut [u16]) -> Option<usize>
    ensures count { result ≡ count_of (list_in (length out.old) word.now) }
    ensures numbers { out.new ≡ list_after word.now out.old }
{
    if is_none(word) {
        return Some(0);
    }
    let mut from = 0;
    for (n, entry) in out.iter_mut().enumerate() {
        let end = end_of(word, from, b',');
        let x = number(&word[from..end], 65535)?;
        *entry = u16::try_from(x).ok()?;
        if word.len() <= end {
            return Some(n + 1);
        }
        from = end + 1;
    }
    None
}

// Reads bytes in hexadecimal into a buffer. What is not that, or has no room, is refused.
pub fn bytes(word: &[u8], out: &mut [u8]) -> Option<usize>
    ensures count { result ≡ bytes_count word.now out.old }
    ensures bytes { out.new ≡ bytes_after word.now out.old }
{
    if is_none(word) {
        return Some(0);
    }
    if word.is_empty() {
        return None;
    }
    hexadecimal::read(word, out)
}

// Writes a word at an offset, and answers the offset behind it: the same, and nothing written, without room.
pub fn write_word(out: &mut [u8], at: usize, word: &[u8]) -> usize
    ensures { Wrote out.old at (word.now ∷ []) result out.new }
{
    if out.len() < at || out.len() - at < word.len() {
        return at;
    }
    out[at..at + word.len()].copy_from_slice(word);
    at + word.len()
}

// Writes a number in decimal at an offset, and answers the offset behind it.
pub fn write_number(out: &mut [u8], at: usize, n: u64) -> usize
    ensures { Wrote out.old at (decimal n ∷ []) result out.new }
{
    // How many digits there are is known once they are written, and without room nothing may be.
    let mut digits = [0; 20];
    let count = text::write_number(&mut digits, 0, n);
    write_word(out, at, first(&digits, count))
}

// Writes numbers at an offset, each behind a comma, and answers the offset behind them.
fn write_more(out: &mut [u8], at: usize, list: &[u16]) -> usize
    ensures { Wrote out.old at (more_texts list.now) result out.new }
{
    let mut next = at;
    for x in list {
        next = write_word(out, next, b",");
        next = write_number(out, next, u64::from(*x));
    }
    next
}

// Writes a list of numbers at an offset, and answers the offset behind it.
pub fn write_list(out: &mut [u8], at: usize, list: &[u16]) -> usize
    ensures { Wrote out.old at (list_texts list.now) result out.new }
{
    match list {
        [] => write_word(out, at, b"-"),
        [first, rest @ ..] => {
            let next = write_number(out, at, u64::from(*first));
            write_more(out, next, rest)
        }
    }
}

// Writes bytes in hexadecimal at an offset, and answers the offset behind them.
pub fn write_bytes(out: &mut [u8], at: usize, bytes: &[u8]) -> usize
    ensures { Wrote out.old at (bytes_word bytes.now ∷ []) result out.new }
{
    if bytes.is_empty() {
        return write_word(out, at, b"-");
    }
    hexadecimal::write(out, at, bytes)
}
