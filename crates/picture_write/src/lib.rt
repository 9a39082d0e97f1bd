// A picture lump written from lent colour and cover. Nothing is written before all is judged and the lump's length is known.
#![tactic(auto)]

ghost use Rattle.std.specs.Prelude.{◌≡◌, ◌*◌, ◌≤◌, length, Ok};
ghost use Rattle.picture_header.specs.declared.Picture.{Picture};
ghost use Rattle.picture_write.specs.Lump.{written_of, written_length};
ghost use Rattle.picture_write.specs.Encoding.{encode_check, Encoded};

mod cover;
mod given;
mod header;
mod pixels;

use cover::Cover;
use picture_header::Picture;
use pixels::Pixels;
use refusal::Refusal;

// Writes the picture of these pixels, row by row from the top, into the front of `out`: header, column offsets, columns in
// order, each unbroken covered run as one post. The numbers are 55 to 58. A refusal leaves `out` as it was.
pub fn encode(
    picture: Picture,
    colour: &[u8],
    cover: &[u8],
    out: &mut [u8],
) -> Result<usize, Refusal>
    ensures { Encoded picture colour.now cover.now out.old result out.new }
{
    given::judge_given(picture.width, picture.height, colour.len(), cover)?;
    let covered = Cover {
        bytes: cover,
        width: picture.width,
        height: picture.height,
    };
    let length = covered.written_length();
    if out.len() < length {
        return Err(Refusal::EncodeRoom);
    }
    let pixels = Pixels {
        cover: covered,
        colour,
    };
    pixels.write_columns(out);
    header::write_header(picture, out);
    Ok(length)
}
