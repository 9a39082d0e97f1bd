// Painting: a picture into two lent planes, colour and cover. Nothing is written before the whole picture has passed.
#![tactic(auto)]

ghost use Rattle.std.specs.Prelude.{◌≡◌, ◌++◌, ◌≤◌, length, drop, replicate, Ok};
ghost use Rattle.refusal.specs.Checks.{◌and_then◌};
ghost use Rattle.picture_header.specs.Headers.{picture_header_check};
ghost use Rattle.layout.specs.Buffers.{buffer_after};
ghost use Rattle.picture_paint.specs.Buffers.{room_check, paint_check};
ghost use Rattle.picture_paint.specs.Pixels.{Painted, by_colour, by_cover, plane_of};

mod canvas;

use canvas::Canvas;
use picture_header::{Picture, height_of, judge_header, width_of};
use refusal::Refusal;

// Paints the picture into the first width × height bytes of both planes, row by row from the top: its colours, 0 where
// nothing is painted, and its cover, 1 or 0. The numbers are 50 to 55. A refusal leaves both planes as they were.
pub fn paint(lump: &[u8], colour: &mut [u8], cover: &mut [u8]) -> Result<Picture, Refusal>
    ensures { Painted lump.now colour.old cover.old result colour.new cover.new }
{
    judge_room(lump, colour.len(), cover.len())?;
    let picture = picture::judge(lump)?;
    paint_picture(lump, colour, cover);
    Ok(picture)
}

// The header, and that the planes have enough bytes.
fn judge_room(lump: &[u8], colours: usize, covers: usize) -> Result<(), Refusal>
    ensures { result ≡ picture_header_check lump.now and_then room_check lump.now colours covers }
{
    judge_header(lump)?;
    let area = height_of(lump) * width_of(lump);
    refusal::pass_if((area <= colours) & (area <= covers), Refusal::PixelBuffer)
}

// Paints a picture that has passed, over cleared planes.
fn paint_picture(lump: &[u8], colour: &mut [u8], cover: &mut [u8])
    requires { paint_check lump.now (length colour.old) (length cover.old) ≡ Ok tt }
    ensures colour_after { colour.new ≡ buffer_after (Ok tt) (plane_of by_colour lump.now) colour.old }
    ensures cover_after { cover.new ≡ buffer_after (Ok tt) (plane_of by_cover lump.now) cover.old }
{
    let width = width_of(lump);
    let area = height_of(lump) * width;
    clear(colour, area);
    clear(cover, area);
    let mut canvas = Canvas {
        lump,
        width,
        colour,
        cover,
    };
    canvas.paint_columns();
}

// Zeros the first `count` bytes: as many as the picture has, of a plane that may be longer.
fn clear(plane: &mut [u8], count: usize)
    requires { count ≤ length plane.old }
    ensures { plane.new ≡ replicate count 0 ++ drop count plane.old }
{
    plane[..count].fill(0);
}
