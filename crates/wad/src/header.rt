// The header: refusals 1 to 4.
ghost use Rattle.std.specs.Prelude.{◌≡◌, ◌<◌, ◌≤◌, length};
ghost use Rattle.wad.specs.Header.{head_of, mark_ok, entry_count, entry_count_ok, start_of, bounds_ok, fields_check, file_header_check};

use crate::parts::part;
use refusal::Refusal;

// The most bytes of a file, and so of a lump.
pub const MOST_BYTES: usize = 16777216;

// A file's header: its first twelve bytes.
#[derive(Clone, Copy)]
pub struct Header<'a> {
    pub bytes: &'a [u8],
    pub ghost whole: { length bytes.now ≡ 12 },
}

impl<'a> Header<'a> {
    pub fn of(wad: &'a [u8]) -> Header<'a>
        requires { 12 ≤ length wad.now }
        ensures { result.bytes.now ≡ head_of wad.now }
    {
        Header {
            bytes: part(wad, 0, 12),
        }
    }

    fn mark_ok(&self) -> bool
        ensures { result ≡ mark_ok self.now.bytes.now }
    {
        matches!(self.bytes, [b'I' | b'P', b'W', b'A', b'D', ..])
    }

    pub fn count(&self) -> usize
        ensures { (result ≡ entry_count self.now.bytes.now) × (result < 2147483648) }
    {
        endian::natural_at(self.bytes, 4)
    }

    pub fn start(&self) -> usize
        ensures { (result ≡ start_of self.now.bytes.now) × (result < 2147483648) }
    {
        endian::natural_at(self.bytes, 8)
    }

    fn bounds_ok(&self, len: usize) -> bool
        requires { len ≤ 16777216 }
        ensures { result ≡ bounds_ok len self.now.bytes.now }
    {
        endian::between_at(self.bytes, 8, 12, len) & (self.start() + 16 * self.count() <= len)
    }

    // 2 to 4, of a file of so many bytes.
    fn judge(&self, len: usize) -> Result<(), Refusal>
        requires { len ≤ 16777216 }
        ensures { result ≡ fields_check len self.now.bytes.now }
    {
        refusal::pass_if(self.mark_ok(), Refusal::Mark)?;
        refusal::pass_if(
            endian::between_at(self.bytes, 4, 0, 4096),
            Refusal::LumpCount,
        )?;
        refusal::pass_if(self.bounds_ok(len), Refusal::DirectoryBounds)
    }
}

// 1 to 4. The length is judged before a byte is read.
pub fn judge_header(wad: &[u8]) -> Result<(), Refusal>
    ensures { result ≡ file_header_check (length wad.now) (head_of wad.now) }
{
    if !(12..=MOST_BYTES).contains(&wad.len()) {
        return Err(Refusal::FileLength);
    }
    Header::of(wad).judge(wad.len())
}
