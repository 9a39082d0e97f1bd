// The words of a script.
ghost use Rattle.std.specs.Prelude.{◌≡◌};
ghost use Rattle.vector_script.specs.Script.{matched};

// A part of what is lent.
#[derive(Clone, Copy, Debug, PartialEq, Eq)]
pub(crate) enum Part {
    // What a question is asked with.
    With,
    // The file or lump that it is asked about.
    File,
}

// What the next number is for.
#[derive(Clone, Copy, Debug, PartialEq, Eq)]
pub(crate) enum Purpose {
    Write,
    Words,
    At,
    Again,
    Rise,
}

#[derive(Clone, Copy, Debug, PartialEq, Eq)]
pub(crate) enum Word {
    Begin(Part),
    Next(Purpose),
}

const NAMES: [(&str, Word); 6] = [
    ("with", Word::Begin(Part::With)),
    ("file", Word::Begin(Part::File)),
    ("words", Word::Next(Purpose::Words)),
    ("at", Word::Next(Purpose::At)),
    ("again", Word::Next(Purpose::Again)),
    ("rise", Word::Next(Purpose::Rise)),
];

impl TryFrom<&[u8]> for Word {
    type Error = UnknownWord;

    fn try_from(word: &[u8]) -> Result<Word, UnknownWord> {
        named(&NAMES, word)
    }
}

// A word that is no name.
#[derive(Clone, Copy, Debug, PartialEq, Eq)]
pub struct UnknownWord;

// What has the name. A word as long as all the names together can pass for one of them; that stays, since the program
// has to do what it did on every input.
pub fn named<T: Copy>(names: &[(&str, T)], word: &[u8]) -> Result<T, UnknownWord> {
    let past_all = names.iter().fold(0, |sum: usize, (name, _)| sum.wrapping_add(name.len() + 1));
    names
        .iter()
        .find(|(name, _)| matched(name, word, past_all) == word.len())
        .map(|(_, meaning)| *meaning)
        .ok_or(UnknownWord)
}

// How far the word agrees with a name. After a letter that differs it is compared past the length of all names.
fn matched(name: &str, word: &[u8], past_all: usize) -> usize
    ensures { result ≡ matched word.now past_all name.now }
{
    name.as_bytes().iter().fold(0, |at: usize, letter| {
        if word.get(at) == Some(letter) {
            at.wrapping_add(1)
        } else {
            past_all
        }
    })
}
