// Pictures.
#![tactic(auto)]

ghost use Rattle.std.specs.Prelude.{◌≡◌};
ghost use Rattle.export_pictures.specs.Pictures.{picture_out, picture_judged, PicturePainted, PictureWritten};

use picture_header::Picture;
use refusal::{LengthAnswer, Refusal, Status};

#[repr(C)]
#[derive(Clone, Copy)]
pub struct PictureAnswer {
    pub status: Status,
    pub picture: Picture,
}

impl From<Result<Picture, Refusal>> for PictureAnswer {
    ghost from_gives = { λ verdict answer. answer ≡ picture_out verdict };

    fn from(verdict: Result<Picture, Refusal>) -> PictureAnswer {
        match verdict {
            Ok(picture) => PictureAnswer {
                status: Status::ACCEPTED,
                picture,
            },
            Err(r) => PictureAnswer {
                status: Status::from(r),
                picture: Picture::default(),
            },
        }
    }
}

// A picture judged, 50 to 54.
#[unsafe(no_mangle)]
pub extern "C" fn meshpigeon_judge_picture(lump: &[u8]) -> PictureAnswer
    ensures { result ≡ picture_judged lump.now }
{
    PictureAnswer::from(picture::judge(lump))
}

// A picture painted into two lent buffers, 50 to 55.
#[unsafe(no_mangle)]
pub extern "C" fn meshpigeon_paint_picture(
    lump: &[u8],
    colour: &mut [u8],
    cover: &mut [u8],
) -> PictureAnswer
    ensures { PicturePainted lump.now colour.old cover.old result
        colour.new cover.new }
{
    PictureAnswer::from(picture_paint::paint(lump, colour, cover))
}

// A picture written from its pixels into the front of a lent buffer, 55 to 58.
#[unsafe(no_mangle)]
pub extern "C" fn meshpigeon_write_picture(
    picture: Picture,
    colour: &[u8],
    cover: &[u8],
    out: &mut [u8],
) -> LengthAnswer
    ensures { PictureWritten picture colour.now cover.now out.old result out.new }
{
    LengthAnswer::from(picture_write::encode(picture, colour, cover, out))
}
