// Questions on text maps: the text is lent as the file. A block is asked for by its number, of 64 bits.
use std::io;
use vector_script::Loan;
use vector_script::print::{Each, Verdict};

// The namespace's places, then the counts of vertices, linedefs, sidedefs, sectors and things.
pub(crate) fn textmap<R: Print>(loan: &Loan<'_, R>) -> io::Result<()> {
    let a = export_texts::meshpigeon_text_map(loan.file);
    let counts = [a.vertices, a.linedefs, a.sidedefs, a.sectors, a.things];
    print!(loan.rt;
        "{} {} {}{}",
        Verdict(a.status),
        a.namespace_start,
        a.namespace_end,
        Each(&counts)
    )
}

// Whether x is y, and whether x is below y: a double has no text here.
pub(crate) fn vertex<R: Print>(loan: &Loan<'_, R>) -> io::Result<()> {
    let number = loan.long_number()?;
    let a = export_texts::meshpigeon_text_vertex(loan.file, number);
    let v = a.vertex;
    let compared = [v.x == v.y, v.x < v.y].map(u8::from);
    print!(loan.rt; "{}{}", Verdict(a.status), Each(&compared))
}

// Whether the floor is the ceiling, whether it is below it, and whether the light is 160; then the places of the floor's flat.
pub(crate) fn sector<R: Print>(loan: &Loan<'_, R>) -> io::Result<()> {
    let number = loan.long_number()?;
    let a = export_texts::meshpigeon_text_sector(loan.file, number);
    let s = a.sector;
    let flat = s.texturefloor;
    let compared = [
        s.heightfloor == s.heightceiling,
        s.heightfloor < s.heightceiling,
        s.lightlevel == 160,
    ]
    .map(u8::from);
    print!(loan.rt;
        "{}{} {} {}",
        Verdict(a.status),
        Each(&compared),
        flat.start,
        flat.end
    )
}
