// Questions on pictures.
ghost use Rattle.std.specs.Prelude.{◌≤◌};

use export_pictures::PictureAnswer;
use picture_header::Picture;
use std::io;
use vector_script::print::{Each, Runs, Verdict};
use vector_script::{Loan, MOST_COPIED};

// Judged, painted, and both planes. Asked with the length of the colour plane, then what both planes hold.
pub(crate) fn picture<R: Print>(loan: &Loan<'_, R>) -> io::Result<()> {
    let (colours, covers) = planes(loan, 0)?;
    loan.fits(colours)?;
    loan.fits(covers)?;
    let mut colour_room = [0; MOST_COPIED];
    let mut cover_room = [0; MOST_COPIED];
    let colour = loan.copy(colours, &mut colour_room);
    let cover = loan.copy(covers, &mut cover_room);
    picture_answer(loan, export_pictures::meshpigeon_judge_picture(loan.file))?;
    let painted = export_pictures::meshpigeon_paint_picture(loan.file, colour, cover);
    picture_answer(loan, painted)?;
    print!(loan.rt; "{} cover{}", Runs(colour), Runs(cover))
}

fn picture_answer<R: Print>(loan: &Loan<'_, R>, a: PictureAnswer) -> io::Result<()> {
    let p = a.picture;
    print!(loan.rt;
        "{} {} {}{}",
        Verdict(a.status),
        p.width,
        p.height,
        Each(&[p.left, p.top])
    )
}

// The length of the colour plane stands at a place, and both planes behind it.
fn planes<'a, R: Print>(loan: &Loan<'a, R>, at: usize) -> io::Result<(&'a [u8], &'a [u8])>
    requires { at ≤ 16 }
{
    let end = at + 4 + loan.number(at)?;
    let colours = loan.part(loan.with, at + 4, end)?;
    Ok((colours, loan.rest(end)))
}

// Written over the file. Asked with width, height, both offsets and the length of the colour plane, then what both planes hold.
pub(crate) fn encode<R: Print>(loan: &Loan<'_, R>) -> io::Result<()> {
    let (colours, covers) = planes(loan, 16)?;
    let picture = Picture {
        width: loan.number(0)?,
        height: loan.number(4)?,
        left: loan.coordinate(8)?,
        top: loan.coordinate(12)?,
    };
    loan.fits(loan.file)?;
    let mut room = [0; MOST_COPIED];
    let out = loan.copy(loan.file, &mut room);
    let a = export_pictures::meshpigeon_write_picture(picture, colours, covers, out);
    print!(loan.rt; "{} {}{}", Verdict(a.status), a.length, Runs(out))
}
