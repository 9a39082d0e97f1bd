// Pictures, for C.
ghost use Rattle.std.specs.Prelude.{◌≡◌};
ghost use Rattle.export_pictures.specs.Pictures.{picture_judged, PicturePainted, PictureWritten};

use export_pictures::PictureAnswer;
use picture_header::Picture;
use refusal::LengthAnswer;

// A picture judged, 50 to 54.
#[unsafe(no_mangle)]
pub extern "C" fn meshpigeon_judge_picture(lump: &[u8]) -> PictureAnswer
    ensures { result ≡ picture_judged lump.now }
{
    export_pictures::meshpigeon_judge_picture(lump)
}

// A picture painted into two lent buffers, 50 to 55.
#[unsafe(no_mangle)]
pub extern "C" fn meshpigeon_paint_picture(
    lump: &[u8],
    colour: &mut [u8],
    cover: &mut [u8],
) -> PictureAnswer
    ensures { PicturePainted lump.now colour.old cover.old result
        colour.new cover.new }
{
    export_pictures::meshpigeon_paint_picture(lump, colour, cover)
}

// A picture written from its pixels into the front of a lent buffer, 55 to 58.
#[unsafe(no_mangle)]
pub extern "C" fn meshpigeon_write_picture(
    picture: Picture,
    colour: &[u8],
    cover: &[u8],
    out: &mut [u8],
) -> LengthAnswer
    ensures { PictureWritten picture colour.now cover.now out.old result out.new }
{
    export_pictures::meshpigeon_write_picture(picture, colour, cover, out)
}
