// The eight kinds of map record. One is read, its fields are printed, and it is written into a copy of its lump, which
// is printed too.
use refusal::Status;
use std::io;
use vector_script::print::{Each, Runs, Verdict};
use vector_script::{Loan, MOST_COPIED};

// What things and linedefs are read as, and then written as: Hexen's or Doom's.
#[derive(Clone, Copy, Debug, PartialEq, Eq)]
pub(crate) struct Games {
    pub(crate) read_hexen: bool,
    pub(crate) write_hexen: bool,
}

impl Games {
    pub(crate) const DOOM: Games = Games {
        read_hexen: false,
        write_hexen: false,
    };

    pub(crate) const DOOM_TO_HEXEN: Games = Games {
        read_hexen: false,
        write_hexen: true,
    };

    pub(crate) const HEXEN_TO_DOOM: Games = Games {
        read_hexen: true,
        write_hexen: false,
    };

    pub(crate) const HEXEN: Games = Games {
        read_hexen: true,
        write_hexen: true,
    };
}

#[derive(Clone, Copy, Debug, PartialEq, Eq)]
pub(crate) enum Kind {
    Thing(Games),
    Linedef(Games),
    Sidedef,
    Vertex,
    Seg,
    Subsector,
    Node,
    Sector,
}

// A record's place to be read from, and its place in the copy of the lump that it is written to.
#[derive(Drop)]
struct Places<'a, R> {
    rt: &'a R,
    from: &'a [u8],
    index: usize,
    written: usize,
}

impl<R: Print> Places<'_, R> {
    // Writes a record into the copy, and prints the write's status and the copy.
    fn write<F: FnOnce(&mut [u8], usize) -> Status>(
        self,
        copy: &mut [u8],
        write: F,
    ) -> io::Result<()>
        requires { F.IsAlwaysCallable write }
    {
        let status = write(copy, self.written);
        print!(self.rt; "{}{}", Verdict(status), Runs(copy))
    }
}

// Asked with an index alone, it is read there; with an index and its bytes, from those. It is written to the index.
pub(crate) fn put<R: Print>(kind: Kind, loan: &Loan<'_, R>) -> io::Result<()> {
    let written = loan.number(0)?;
    loan.fits(loan.file)?;
    let mut room = [0; MOST_COPIED];
    let copy = loan.copy(loan.file, &mut room);
    let (from, index) = if loan.with.len() == 4 {
        (loan.file, written)
    } else {
        (loan.rest(4), 0)
    };
    let places = Places {
        rt: loan.rt,
        from,
        index,
        written,
    };
    read_and_write(kind, places, copy)
}

fn read_and_write<R: Print>(kind: Kind, places: Places<'_, R>, copy: &mut [u8]) -> io::Result<()> {
    match kind {
        Kind::Thing(games) => thing(games, places, copy),
        Kind::Linedef(games) => linedef(games, places, copy),
        Kind::Sidedef => sidedef(places, copy),
        Kind::Vertex => vertex(places, copy),
        Kind::Seg => seg(places, copy),
        Kind::Subsector => subsector(places, copy),
        Kind::Node => node(places, copy),
        Kind::Sector => sector(places, copy),
    }
}

fn thing<R: Print>(games: Games, places: Places<'_, R>, copy: &mut [u8]) -> io::Result<()> {
    let a = export_records::meshpigeon_read_thing(places.from, places.index, games.read_hexen);
    let mut t = a.thing;
    print!(places.rt; "{}", Each(&[t.id, t.x, t.y, t.height]))?;
    print!(places.rt;
        "{}",
        Runs(&[t.angle, t.kind, t.flags, u16::from(t.action)])
    )?;
    print!(places.rt;
        "{} {}{}",
        Runs(&t.args),
        u8::from(t.hexen),
        Verdict(a.status)
    )?;
    t.hexen = games.write_hexen;
    places.write(
        copy,
        |lump, i| export_records::meshpigeon_write_thing(lump, i, t),
    )
}

fn linedef<R: Print>(games: Games, places: Places<'_, R>, copy: &mut [u8]) -> io::Result<()> {
    let a = export_records::meshpigeon_read_linedef(places.from, places.index, games.read_hexen);
    let mut l = a.linedef;
    let words = [l.start, l.end, l.flags, l.special, l.tag, l.right, l.left];
    print!(places.rt; "{}", Runs(&words))?;
    print!(places.rt;
        "{} {}{}",
        Runs(&l.args),
        u8::from(l.hexen),
        Verdict(a.status)
    )?;
    l.hexen = games.write_hexen;
    places.write(
        copy,
        |lump, i| export_records::meshpigeon_write_linedef(lump, i, l),
    )
}

fn sidedef<R: Print>(places: Places<'_, R>, copy: &mut [u8]) -> io::Result<()> {
    let a = export_records::meshpigeon_read_sidedef(places.from, places.index);
    let s = a.sidedef;
    print!(places.rt; "{}", Each(&[s.x_offset, s.y_offset]))?;
    print!(places.rt; "{}{}{}", Runs(&s.upper), Runs(&s.lower), Runs(&s.middle))?;
    print!(places.rt; " {}{}", s.sector, Verdict(a.status))?;
    places.write(
        copy,
        |lump, i| export_records::meshpigeon_write_sidedef(lump, i, s),
    )
}

fn vertex<R: Print>(places: Places<'_, R>, copy: &mut [u8]) -> io::Result<()> {
    let a = export_records::meshpigeon_read_vertex(places.from, places.index);
    let v = a.vertex;
    print!(places.rt; "{}{}", Each(&[v.x, v.y]), Verdict(a.status))?;
    places.write(
        copy,
        |lump, i| export_records::meshpigeon_write_vertex(lump, i, v),
    )
}

fn seg<R: Print>(places: Places<'_, R>, copy: &mut [u8]) -> io::Result<()> {
    let a = export_records::meshpigeon_read_seg(places.from, places.index);
    let s = a.seg;
    print!(places.rt;
        "{}",
        Runs(&[s.start, s.end, s.angle, s.linedef, s.direction])
    )?;
    print!(places.rt; " {}{}", s.offset, Verdict(a.status))?;
    places.write(
        copy,
        |lump, i| export_records::meshpigeon_write_seg(lump, i, s),
    )
}

fn subsector<R: Print>(places: Places<'_, R>, copy: &mut [u8]) -> io::Result<()> {
    let a = export_records::meshpigeon_read_subsector(places.from, places.index);
    let s = a.subsector;
    print!(places.rt; "{}{}", Runs(&[s.number, s.first]), Verdict(a.status))?;
    places.write(
        copy,
        |lump, i| export_records::meshpigeon_write_subsector(lump, i, s),
    )
}

fn node<R: Print>(places: Places<'_, R>, copy: &mut [u8]) -> io::Result<()> {
    let a = export_records::meshpigeon_read_node(places.from, places.index);
    let n = a.node;
    print!(places.rt; "{}", Each(&[n.x, n.y, n.dx, n.dy]))?;
    print!(places.rt; "{}{}", Each(&n.right_box), Each(&n.left_box))?;
    print!(places.rt; "{}{}", Runs(&[n.right, n.left]), Verdict(a.status))?;
    places.write(
        copy,
        |lump, i| export_records::meshpigeon_write_node(lump, i, n),
    )
}

fn sector<R: Print>(places: Places<'_, R>, copy: &mut [u8]) -> io::Result<()> {
    let a = export_records::meshpigeon_read_sector(places.from, places.index);
    let s = a.sector;
    print!(places.rt; "{}", Each(&[s.floor, s.ceiling]))?;
    print!(places.rt; "{}{}", Runs(&s.floor_flat), Runs(&s.ceiling_flat))?;
    print!(places.rt;
        "{}{}",
        Runs(&[s.light, s.special, s.tag]),
        Verdict(a.status)
    )?;
    places.write(
        copy,
        |lump, i| export_records::meshpigeon_write_sector(lump, i, s),
    )
}

// What is asked with ends where the file begins; a longer one is taken modulo this and one.
const MOST_ASKED: usize = 196608;

// Asked with the count of sectors, of 64 bits, then each scrap's length; a length that is cut is asked for too.
// Behind its end the lump begins again.
pub(crate) fn sidedefs<R: Print>(loan: &Loan<'_, R>) -> io::Result<()> {
    let mut state = export_sidedefs::meshpigeon_sidedefs_start(loan.long_number()?);
    let mut at: usize = 0;
    for i in 2..(loan.with.len() % (MOST_ASKED + 1)).div_ceil(4) {
        let end = at.wrapping_add(loan.number(4 * i)?);
        let scrap = loan.part(loan.file, at, end)?;
        state = export_sidedefs::meshpigeon_sidedefs_feed(state, scrap);
        at = if end == loan.file.len() { 0 } else { end };
    }
    let status = export_sidedefs::meshpigeon_sidedefs_verdict(state);
    print!(loan.rt; "{}", Verdict(status))
}
