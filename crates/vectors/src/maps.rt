// Questions on maps. Most lend work words, which are printed behind the answer.
use crate::questions::Fault;
use std::io;
use vector_script::Loan;
use vector_script::print::{Each, Runs, Verdict};

// No question is lent more work words, or a longer output of its kind.
const MOST_WORDS: usize = 131072;

const MOST_DIFFERENCES: usize = 64;

const LONGEST_REASON: usize = 32768;

const LONGEST_OUTPUT: usize = 128;

const MOST_RENUMBERED: usize = 6;

// So many of a value to be lent, at the front of a room, unless they are too many.
fn filled<T: Copy>(room: &mut [T], value: T, length: usize) -> Result<&mut [T], Fault>
    requires { T.is_infallible value }
{
    let part = room.get_mut(..length).ok_or(Fault::IllFormed)?;
    part.fill(value);
    Ok(part)
}

fn work_words<'a, R: Print>(
    loan: &Loan<'_, R>,
    room: &'a mut [u16],
) -> Result<&'a mut [u16], Fault> {
    let word = (loan.words.word % 65536) as u16;
    filled(room, word, loan.words.count)
}

// Asked with the marker's entry.
pub(crate) fn game<R: Print>(loan: &Loan<'_, R>) -> io::Result<()> {
    let marker = loan.long_number()?;
    let a = export_maps::meshpigeon_map_game(loan.file, marker);
    print!(loan.rt; "{} {}", Verdict(a.status), u8::from(a.hexen))
}

// Where a descent begins: the count of subsectors, then x and y.
struct Viewpoint {
    subsectors: usize,
    x: i16,
    y: i16,
}

impl Viewpoint {
    fn new<R: Print>(loan: &Loan<'_, R>) -> io::Result<Viewpoint> {
        Ok(Viewpoint {
            subsectors: loan.number(0)?,
            x: loan.coordinate(4)?,
            y: loan.coordinate(8)?,
        })
    }
}

pub(crate) fn descend<R: Print>(loan: &Loan<'_, R>) -> io::Result<()> {
    let Viewpoint { subsectors, x, y } = Viewpoint::new(loan)?;
    let a = export_maps::meshpigeon_descend(loan.file, subsectors, x, y);
    print!(loan.rt; "{} {} {}", Verdict(a.status), a.subsector, a.count)
}

pub(crate) fn draw_order<R: Print>(loan: &Loan<'_, R>) -> Result<(), Fault> {
    let mut word_room = [0; MOST_WORDS];
    let words = work_words(loan, &mut word_room)?;
    let Viewpoint { subsectors, x, y } = Viewpoint::new(loan)?;
    let a = export_maps::meshpigeon_draw_order(loan.file, subsectors, x, y, words);
    print!(loan.rt; "{} {}{}", Verdict(a.status), a.count, Runs(words))?;
    Ok(())
}

// Asked with the map's name.
pub(crate) fn judge_map<R: Print>(loan: &Loan<'_, R>) -> Result<(), Fault> {
    let mut word_room = [0; MOST_WORDS];
    let words = work_words(loan, &mut word_room)?;
    let a = export_maps::meshpigeon_judge_map(loan.file, loan.with, words);
    print!(loan.rt;
        "{} {} {}{}",
        Verdict(a.status),
        a.depth,
        a.marker,
        Runs(words)
    )?;
    Ok(())
}

// The file is the base and then the patch. Asked with the base's length, then the name.
pub(crate) fn judge_pair<R: Print>(loan: &Loan<'_, R>) -> Result<(), Fault> {
    let mut word_room = [0; MOST_WORDS];
    let words = work_words(loan, &mut word_room)?;
    let (base, patch) = loan.two_files()?;
    let a = export_pairs::meshpigeon_pair_judge_map(base, patch, loan.rest(4), words);
    print!(loan.rt;
        "{} {} {} {}{}",
        Verdict(a.status),
        a.file,
        a.depth,
        a.marker,
        Runs(words)
    )?;
    Ok(())
}

// Asked with the name of eight bytes, and the output's length, or else it is 20; the output holds 9s.
pub(crate) fn why<R: Print>(loan: &Loan<'_, R>) -> Result<(), Fault> {
    let mut word_room = [0; MOST_WORDS];
    let words = work_words(loan, &mut word_room)?;
    let length = if loan.with.len() <= 8 {
        20
    } else {
        loan.number(8)?
    };
    let mut room = [0; LONGEST_REASON];
    let out = filled(&mut room, 9, length)?;
    let name = loan.part(loan.with, 0, 8)?;
    let a = export_why::meshpigeon_why(loan.file, name, words, out);
    print!(loan.rt;
        "{} {} {} {}",
        Verdict(a.status),
        a.depth,
        a.marker,
        a.length
    )?;
    print!(loan.rt; "{} words{}", Runs(out), Runs(words))?;
    Ok(())
}

// Asked with the name of eight bytes, the output's length and the list of old numbers, of 16 bits; the output
// holds 9s.
pub(crate) fn renumber<R: Print>(loan: &Loan<'_, R>) -> Result<(), Fault> {
    let mut word_room = [0; MOST_WORDS];
    let words = work_words(loan, &mut word_room)?;
    let length = loan.number(8)?;
    let (numbers, _) = loan.rest(12).as_chunks();
    let mut order_room = [0; MOST_RENUMBERED];
    let order = order_room.get_mut(..numbers.len()).ok_or(Fault::IllFormed)?;
    for (old, n) in order.iter_mut().zip(numbers) {
        *old = u16::from_le_bytes(*n);
    }
    let mut room = [0; LONGEST_OUTPUT];
    let out = filled(&mut room, 9, length)?;
    let name = loan.part(loan.with, 0, 8)?;
    let a = export_renumber::meshpigeon_renumber(loan.file, name, words, order, out);
    print!(loan.rt; "{} {}", Verdict(a.status), a.length)?;
    print!(loan.rt; "{} words{}", Runs(out), Runs(words))?;
    Ok(())
}

// The file is the old WAD and then the new one. Asked with the old one's length, both names of eight bytes, and how
// many words the list has; it holds 9s.
pub(crate) fn differences<R: Print>(loan: &Loan<'_, R>) -> Result<(), Fault> {
    let mut word_room = [0; MOST_DIFFERENCES];
    let words = work_words(loan, &mut word_room)?;
    let mut list_room = [0; MOST_DIFFERENCES];
    let list = filled(&mut list_room, 9, loan.number(20)?)?;
    let (old, new) = loan.two_files()?;
    let a = export_differences::meshpigeon_differences(
        old,
        loan.part(loan.with, 4, 12)?,
        new,
        loan.part(loan.with, 12, 20)?,
        words,
        list,
    );
    print!(loan.rt; "{} {}{}", Verdict(a.status), a.file, Each(&a.counts))?;
    print!(loan.rt; " list{} words{}", Runs(list), Runs(words))?;
    Ok(())
}
