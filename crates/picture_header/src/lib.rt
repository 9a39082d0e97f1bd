// A picture's header, and the checks that come before any column: 50, 51 and 52. The definitions are in specs/.
#![tactic(auto)]

ghost use Rattle.std.specs.Prelude.{◌≡◌, ◌≤◌, ◌<◌, length};
ghost use Rattle.picture_header.specs.Layout.{width_of, height_of, picture_of};
ghost use Rattle.picture_header.specs.Headers.{size_ok, picture_header_check};

use refusal::Refusal;

// A picture's header: its size in pixels, and the offsets of its origin.
#[repr(C)]
#[derive(Clone, Copy, Default)]
pub struct Picture {
    pub width: usize,
    pub height: usize,
    pub left: i16,
    pub top: i16,
}

// Each field has a function of its own, which asks for the header's bytes: a type that holds them would ask more of callers.
pub fn width_of(lump: &[u8]) -> usize
    requires { 8 ≤ length lump.now }
    ensures { (result ≡ width_of lump.now) × (result < 65536) }
{
    endian::u16_at(lump, 0) as usize
}

pub fn height_of(lump: &[u8]) -> usize
    requires { 8 ≤ length lump.now }
    ensures { (result ≡ height_of lump.now) × (result < 65536) }
{
    endian::u16_at(lump, 2) as usize
}

pub fn picture_of(lump: &[u8]) -> Picture
    requires { 8 ≤ length lump.now }
    ensures { result ≡ picture_of lump.now }
{
    Picture {
        width: width_of(lump),
        height: height_of(lump),
        left: endian::i16_at(lump, 4),
        top: endian::i16_at(lump, 6),
    }
}

pub fn size_ok(width: usize, height: usize) -> bool
    ensures { result ≡ size_ok width height }
{
    (1..=320).contains(&width) && (1..=200).contains(&height)
}

pub fn judge_header(lump: &[u8]) -> Result<(), Refusal>
    ensures { result ≡ picture_header_check lump.now }
{
    if lump.len() < 8 {
        return Err(Refusal::PictureLength);
    }
    let width = width_of(lump);
    if !size_ok(width, height_of(lump)) {
        return Err(Refusal::PictureSize);
    }
    refusal::pass_if(8 + 4 * width <= lump.len(), Refusal::PictureOffsets)
}
