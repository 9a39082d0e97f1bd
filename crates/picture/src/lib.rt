// Pictures, judged. The format and the order of the refusals are in specs/.
#![tactic(auto)]

ghost use Rattle.std.specs.Prelude.{◌≡◌};
ghost use Rattle.picture.specs.Judging.{picture_check, picture_answer};

mod columns;
mod notes;
mod skipping;

use columns::Columns;
use picture_header::Picture;
use refusal::Refusal;
pub use skipping::skip_posts;

// Whether the lump is a picture, with the numbers 50 to 54.
pub fn judge(lump: &[u8]) -> Result<Picture, Refusal>
    ensures { result ≡ picture_answer (picture_check lump.now) lump.now }
{
    picture_header::judge_header(lump)?;
    let picture = picture_header::picture_of(lump);
    Columns {
        lump,
        width: picture.width,
        height: picture.height,
    }
    .judge()?;
    Ok(picture)
}
