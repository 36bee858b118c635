// 16- and 32-bit numbers in byte slices, low byte first: read and written at an offset, alone or in lists. Assumes nothing.
#![tactic(auto)]

ghost use Rattle.std.specs.Prelude.{◌≡◌, ◌+◌, ◌*◌, ◌≤◌, length};
ghost use Rattle.paging.specs.Sets.{table};
ghost use Rattle.words.specs.Words.{bytes, words, word_at, put};

pub fn read_u16(s: &[u8], at: usize) -> u16
    requires { at + 2 ≤ length s.now }
    ensures { result ≡ word_at 2 s.now at }
{
    u16::from_le_bytes([s[at], s[at + 1]])
}

pub fn read_u32(s: &[u8], at: usize) -> u32
    requires { at + 4 ≤ length s.now }
    ensures { result ≡ word_at 4 s.now at }
{
    u32::from_le_bytes([s[at], s[at + 1], s[at + 2], s[at + 3]])
}

fn write_u16(s: &mut [u8], at: usize, v: u16)
    requires { at + 2 ≤ length s.old }
    ensures { s.new ≡ put s.old at (bytes 2 v) }
{
    s[at..at + 2].copy_from_slice(&v.to_le_bytes());
}

pub fn write_u32(s: &mut [u8], at: usize, v: u32)
    requires { at + 4 ≤ length s.old }
    ensures { s.new ≡ put s.old at (bytes 4 v) }
{
    s[at..at + 4].copy_from_slice(&v.to_le_bytes());
}

// A list of 16-bit numbers, one after the other.
pub fn write_list(s: &mut [u8], at: usize, list: &[u16])
    requires { at + 2 * length list.now ≤ length s.old }
    ensures { s.new ≡ put s.old at (words 2 list.now) }
{
    for (i, v) in list.iter().enumerate() {
        write_u16(s, at + 2 * i, *v);
    }
}

// A list of 32-bit numbers, as a header has them.
pub fn write_numbers(s: &mut [u8], at: usize, list: &[u32])
    requires { at + 4 * length list.now ≤ length s.old }
    ensures { s.new ≡ put s.old at (words 4 list.now) }
{
    for (i, v) in list.iter().enumerate() {
        write_u32(s, at + 4 * i, *v);
    }
}

// A list of 16-bit numbers at the start of an array, and `rest` in each entry after it.
pub fn read_list<const N: usize>(s: &[u8], at: usize, count: usize, rest: u16) -> [u16; N]
    requires { (count ≤ N) × (at + 2 * count ≤ length s.now) }
    ensures { result ≡ table N count rest (λ i. word_at 2 s.now (at + 2 * i)) }
{
    let mut list = [rest; N];
    for i in 0..count {
        list[i] = read_u16(s, at + 2 * i);
    }
    list
}
