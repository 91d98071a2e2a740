// The fields of a record: big-endian words behind its kind byte.
ghost use Rattle.std.specs.Prelude.{◌≡◌, ◌+◌, ◌-◌, ◌/◌, ◌≤◌, ◌<◌, length, take, drop};
ghost use Rattle.sheet_text.specs.Bytes.{big_endian, fields_of};

// The word at a place.
pub fn word_at(s: &[u8], at: usize) -> u32
    requires { at + 4 ≤ length s.now }
    ensures { result ≡ big_endian (take 4 (drop at s.now)) }
{
    u32::from_be_bytes([s[at], s[at + 1], s[at + 2], s[at + 3]])
}

// The fields of a record as words, and how many there are.
pub fn read_fields(bytes: &[u8], words: &mut [u32]) -> usize
    requires { (1 ≤ length bytes.now) × ((length bytes.now - 1) / 4 ≤ length words.old) }
    ensures value { result ≡ (length bytes.now - 1) / 4 }
    ensures words_after { take result words.new ≡ fields_of bytes.now }
    ensures upper_bound { result ≤ length words.new }
{
    let n = (bytes.len() - 1) / 4;
    for i in 0..n {
        words[i] = word_at(bytes, 4 * i + 1);
    }
    n
}
