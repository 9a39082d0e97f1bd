// What is given to be written as a picture (W-201), judged: 55, 56 and 57.
ghost use Rattle.std.specs.Prelude.{◌≡◌, ◌*◌, ◌≤◌, leb, length};
ghost use Rattle.refusal.specs.Checks.{◌and_then◌};
ghost use Rattle.picture_write.specs.Given.{cover_ok, buffers_check, sides_check, cover_check};

use refusal::Refusal;

// The buffers' lengths, then the size, then the cover.
pub fn judge_given(width: usize, height: usize, colours: usize, cover: &[u8]) -> Result<(), Refusal>
    ensures { result ≡ (buffers_check width height colours (length cover.now) and_then sides_check width
        height and_then cover_check cover.now (height * width)) }
{
    if !(fits(width, height, colours) & fits(width, height, cover.len())) {
        return Err(Refusal::PixelBuffer);
    }
    if !picture_header::size_ok(width, height) {
        return Err(Refusal::EncodeSize);
    }
    refusal::pass_if(cover_ok(cover, height * width), Refusal::EncodeCover)
}

// Whether width × height is at most `room`, for sizes whose product no register holds too.
fn fits(width: usize, height: usize, room: usize) -> bool
    ensures { result ≡ leb (height * width) room }
{
    match height.checked_mul(width) {
        Some(area) => area <= room,
        None => false,
    }
}

// Of a cover that may be longer: whether the first `count` bytes are 0 or 1. All are looked at: a loop without an early end takes many at a time.
fn cover_ok(cover: &[u8], count: usize) -> bool
    requires { count ≤ length cover.now }
    ensures { result ≡ cover_ok cover.now count }
{
    let mut ok = true;
    for byte in &cover[..count] {
        ok &= *byte <= 1;
    }
    ok
}
