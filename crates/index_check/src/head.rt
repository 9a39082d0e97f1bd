// The head of an index: refusal 82.
ghost use Rattle.std.specs.Prelude.{◌≡◌, ◌≤◌};
ghost use Rattle.index.specs.Index.{record_offset};
ghost use Rattle.index_check.specs.Checking.{head_ok};

// Where record i begins; for the count of records, how long the index is.
pub fn record_offset(i: usize) -> usize
    requires { i ≤ 4096 }
    ensures { result ≡ record_offset i }
{
    11 + 10 * i
}

// Long enough, the mark, the file's count and its length. The length is judged before a byte is read.
pub fn head_ok(count: usize, len: usize, index: &[u8]) -> bool
    requires { count ≤ 4096 }
    ensures { result ≡ head_ok count len index.now }
{
    (record_offset(count) <= index.len())
        && index.starts_with(b"WIX")
        && (endian::u16_at(index, 5) as usize == count)
        && (endian::u32_at(index, 7) as usize == len)
}
