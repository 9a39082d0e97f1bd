// The questions by their words.
use crate::records::{Games, Kind};
use crate::{files, maps, pictures, records, texts};
use std::io;
use vector_script::{Loan, UnknownWord, named, print};

#[derive(Clone, Copy, Debug, PartialEq, Eq)]
pub(crate) enum Question {
    Base,
    Title,
    Directory,
    Entry,
    Marker,
    Game,
    Descend,
    Find,
    Sidedefs,
    Picture,
    Encode,
    Map,
    Order,
    Pair,
    Why,
    Renumber,
    TextMap,
    TextVertex,
    TextSector,
    Record(Kind),
    Index,
    Lookup,
    Differences,
}

// Things and linedefs are read as Doom's or Hexen's, and then written as Doom's or Hexen's.
const NAMES: [(&str, Question); 36] = [
    ("base", Question::Base),
    ("title", Question::Title),
    ("directory", Question::Directory),
    ("entry", Question::Entry),
    ("marker", Question::Marker),
    ("game", Question::Game),
    ("descend", Question::Descend),
    ("find", Question::Find),
    ("sidedefs", Question::Sidedefs),
    ("picture", Question::Picture),
    ("encode", Question::Encode),
    ("map", Question::Map),
    ("order", Question::Order),
    ("pair", Question::Pair),
    ("why", Question::Why),
    ("renumber", Question::Renumber),
    ("textmap", Question::TextMap),
    ("vertex", Question::TextVertex),
    ("sector", Question::TextSector),
    ("THINGS", Question::Record(Kind::Thing(Games::DOOM))),
    (
        "THINGS.DH",
        Question::Record(Kind::Thing(Games::DOOM_TO_HEXEN)),
    ),
    (
        "THINGS.HD",
        Question::Record(Kind::Thing(Games::HEXEN_TO_DOOM)),
    ),
    ("THINGS.H", Question::Record(Kind::Thing(Games::HEXEN))),
    ("LINEDEFS", Question::Record(Kind::Linedef(Games::DOOM))),
    (
        "LINEDEFS.DH",
        Question::Record(Kind::Linedef(Games::DOOM_TO_HEXEN)),
    ),
    (
        "LINEDEFS.HD",
        Question::Record(Kind::Linedef(Games::HEXEN_TO_DOOM)),
    ),
    ("LINEDEFS.H", Question::Record(Kind::Linedef(Games::HEXEN))),
    ("SIDEDEFS", Question::Record(Kind::Sidedef)),
    ("VERTEXES", Question::Record(Kind::Vertex)),
    ("SEGS", Question::Record(Kind::Seg)),
    ("SSECTORS", Question::Record(Kind::Subsector)),
    ("NODES", Question::Record(Kind::Node)),
    ("SECTORS", Question::Record(Kind::Sector)),
    ("index", Question::Index),
    ("lookup", Question::Lookup),
    ("differences", Question::Differences),
];

impl TryFrom<&[u8]> for Question {
    type Error = UnknownWord;

    fn try_from(word: &[u8]) -> Result<Question, UnknownWord> {
        named(&NAMES, word)
    }
}

// Why an answer was not printed.
#[derive(Debug, Drop)]
pub(crate) enum Fault {
    IllFormed,
    Io(io::Error),
}

impl From<io::Error> for Fault {
    fn from(error: io::Error) -> Fault {
        Fault::Io(error)
    }
}

impl From<UnknownWord> for Fault {
    fn from(_: UnknownWord) -> Fault {
        Fault::IllFormed
    }
}

// Puts a question to the library with what is lent, and prints the answer.
pub(crate) fn put<R: Print>(
    question: Result<Question, UnknownWord>,
    loan: &Loan<'_, R>,
) -> io::Result<()> {
    match answer(question, loan) {
        Ok(()) => Ok(()),
        Err(Fault::IllFormed) => print::ill_formed(loan.rt),
        Err(Fault::Io(error)) => Err(error),
    }
}

fn answer<R: Print>(
    question: Result<Question, UnknownWord>,
    loan: &Loan<'_, R>,
) -> Result<(), Fault> {
    match question? {
        Question::Base | Question::Title => {}
        Question::Directory => files::directory(loan)?,
        Question::Entry => files::entry(loan)?,
        Question::Marker => files::marker(loan)?,
        Question::Game => maps::game(loan)?,
        Question::Descend => maps::descend(loan)?,
        Question::Find => files::find(loan)?,
        Question::Sidedefs => records::sidedefs(loan)?,
        Question::Picture => pictures::picture(loan)?,
        Question::Encode => pictures::encode(loan)?,
        Question::Map => maps::judge_map(loan)?,
        Question::Order => maps::draw_order(loan)?,
        Question::Pair => maps::judge_pair(loan)?,
        Question::Why => maps::why(loan)?,
        Question::Renumber => maps::renumber(loan)?,
        Question::TextMap => texts::textmap(loan)?,
        Question::TextVertex => texts::vertex(loan)?,
        Question::TextSector => texts::sector(loan)?,
        Question::Record(kind) => records::put(kind, loan)?,
        Question::Index => files::index(loan)?,
        Question::Lookup => files::lookup(loan)?,
        Question::Differences => maps::differences(loan)?,
    }
    Ok(())
}
