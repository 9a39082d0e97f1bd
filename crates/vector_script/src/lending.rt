// What the statements lend.
ghost use Rattle.std.specs.Prelude.{◌≡◌, ◌≤◌, ◌<◌, IsOk, length, replicate};
ghost use Rattle.vector_script.specs.Script.{part_between, width_bytes, Kept, GoesOn};

use crate::counting::Count;
use crate::numbers::{Number, Width};
use crate::print;
use crate::statements::{Tokens, up_to};
use crate::words::{Part, Purpose, UnknownWord, Word};
use std::{io, mem};

// Both parts lie in one memory, where a long one runs into the other, as ever: what is asked with at its front, and
// behind it the file, of up to 2 MB.
const FILE_START: usize = 196608;

pub const MEMORY: usize = 2200000;

// How many bytes are repeated and how often is taken modulo this, so that the product fits.
const REPEATED_BELOW: usize = 2097152;

// How many work words are lent, and what each holds.
#[derive(Clone, Copy, Debug, Default, PartialEq, Eq)]
pub struct WorkWords {
    pub word: usize,
    pub count: usize,
}

// Where each part ends.
#[derive(Clone, Copy, Debug, Default, PartialEq, Eq)]
struct Ends {
    with: usize,
    file: usize,
}

// The memory is lent, so that nothing here allocates. `lend` and `lend_both` count the ill-formed places of the script,
// and cannot fail. The methods with a printer print such a place where they meet it, and end at the first error of
// printing.
#[derive(Debug, Drop)]
pub struct Store<'a> {
    memory: &'a mut [u8],
    ends: Ends,
    // The part that is written, where writing goes on, and what the next number is for.
    part: Part,
    at: usize,
    purpose: Purpose,
    words: WorkWords,
    // How many ill-formed places were counted and not taken yet.
    faults: usize,
}

impl<'a> Store<'a> {
    // The memory is filled with zeros.
    pub fn new(memory: &'a mut [u8; MEMORY]) -> Store<'a>
        ensures memory { result.memory.now ≡ replicate (length memory.old) 0 }
        ensures nothing_lent { (result.ends.with ≡ 0) × (result.ends.file ≡ 0) × (result.words.count ≡ 0) }
        ensures no_faults { result.faults ≡ 0 }
    {
        memory.fill(0);
        Store {
            memory,
            ends: Ends::default(),
            part: Part::With,
            at: 0,
            purpose: Purpose::Write,
            words: WorkWords::default(),
            faults: 0,
        }
    }

    pub fn with(&self) -> &[u8]
        ensures { result.now ≡ part_between self.now.memory.now 0 self.now.ends.with }
    {
        self.memory.get(..self.ends.with).unwrap_or_default()
    }

    pub fn file(&self) -> &[u8]
        ensures { result.now ≡ part_between self.now.memory.now 196608 self.now.ends.file }
    {
        self.memory
            .get(FILE_START..self.ends.file)
            .unwrap_or_default()
    }

    pub fn words(&self) -> WorkWords
        ensures { result ≡ self.now.words }
    {
        self.words
    }

    // How many ill-formed places were counted since the last call.
    pub fn take_faults(&mut self) -> usize
        ensures faults { (result ≡ self.old.faults) × (self.new.faults ≡ 0) }
        ensures rest { (self.new.memory ≡ self.old.memory) × (self.new.ends ≡ self.old.ends) × (self.new.words ≡ self.old.words) }
    {
        mem::take(&mut self.faults)
    }

    // Lends what the last base says, and then what the statement says.
    pub fn lend_both(&mut self, base: &[u8], lines: &[u8])
        ensures kept { Kept self.old self.new }
        ensures counted { self.old.faults ≤ self.new.faults }
    {
        let (before, count) = (self.faults, Count::default());
        let _never_fails = self.lend_both_printing(&count, base, lines);
        self.faults = before.saturating_add(count.places());
    }

    // Lends what the lines say. A # begins a comment.
    pub fn lend(&mut self, lines: &[u8])
        ensures kept { Kept self.old self.new }
        ensures counted { self.old.faults ≤ self.new.faults }
    {
        let (before, count) = (self.faults, Count::default());
        let _never_fails = self.lend_printing(&count, lines);
        self.faults = count.places().saturating_add(before);
    }

    // The same as `lend_both`, but ill-formed places are printed.
    pub fn lend_both_printing(
        &mut self,
        rt: &impl Print,
        base: &[u8],
        lines: &[u8],
    ) -> io::Result<()>
        ensures { Kept self.old self.new }
    {
        self.ends = Ends {
            with: 0,
            file: FILE_START,
        };
        self.words.count = 0;
        self.lend_printing(rt, base)?;
        self.lend_printing(rt, lines)
    }

    // The same as `lend`, but ill-formed places are printed.
    pub fn lend_printing(&mut self, rt: &impl Print, lines: &[u8]) -> io::Result<()>
        ensures { Kept self.old self.new }
    {
        for token in Tokens::of(lines) {
            self.take(rt, token)?;
        }
        Ok(())
    }

    fn take(&mut self, rt: &impl Print, token: &[u8]) -> io::Result<()>
        ensures { Kept self.old self.new }
    {
        match token {
            [] | [b'#', ..] => Ok(()),
            [b'"', text @ ..] => self.write_text(rt, text),
            [b'-' | b'0'..=b'9', ..] => self.use_number(rt, Number::from(token)),
            _ => self.obey(rt, token),
        }
    }

    // A word says which part is written next, or what the next number is for.
    fn obey(&mut self, rt: &impl Print, word: &[u8]) -> io::Result<()>
        ensures { Kept self.old self.new }
    {
        self.purpose = Purpose::Write;
        match Word::try_from(word) {
            Ok(Word::Begin(part)) => self.begin(part),
            Ok(Word::Next(purpose)) => self.purpose = purpose,
            Err(UnknownWord) => print::ill_formed(rt)?,
        }
        Ok(())
    }

    fn begin(&mut self, part: Part)
        ensures { Kept self.old self.new }
    {
        self.part = part;
        match part {
            Part::With => {
                self.at = 0;
                self.ends.with = 0;
            }
            Part::File => {
                self.at = FILE_START;
                self.ends.file = FILE_START;
            }
        }
    }

    // A number is written, unless a word said what else it is for.
    fn use_number(&mut self, rt: &impl Print, number: Number) -> io::Result<()>
        ensures { Kept self.old self.new }
    {
        print::faults(rt, number.strays)?;
        let Number { value, times, .. } = number;
        match mem::replace(&mut self.purpose, Purpose::Write) {
            Purpose::Write => self.write_times(rt, number),
            Purpose::Words => {
                self.words = WorkWords {
                    word: value,
                    count: times,
                };
                Ok(())
            }
            Purpose::At => self.go_to(rt, value),
            Purpose::Again => self.repeat(rt, value, times),
            Purpose::Rise => self.write_rising(rt, value, times),
        }
    }

    // Writing goes on in the file, at most at its end.
    fn go_to(&mut self, rt: &impl Print, offset: usize) -> io::Result<()>
        ensures { Kept self.old self.new }
    {
        self.part = Part::File;
        self.at = FILE_START.wrapping_add(offset);
        if self.ends.file < self.at {
            print::ill_formed(rt)?;
        }
        Ok(())
    }

    fn write_times(&mut self, rt: &impl Print, number: Number) -> io::Result<()>
        ensures { Kept self.old self.new }
    {
        let Number {
            value,
            width,
            times,
            ..
        } = number;
        self.write_number(rt, value, width)?;
        if 1 < times {
            self.repeat(rt, width.bytes(), times - 1)?;
        }
        Ok(())
    }

    // The lowest byte first. What does not fit the width is ill-formed, but for a negative number's upper bits.
    fn write_number(&mut self, rt: &impl Print, value: usize, width: Width) -> io::Result<()>
        ensures kept { Kept self.old self.new }
        ensures goes_on { GoesOn self.old (width_bytes width) self.new }
    {
        let bytes = value.to_le_bytes();
        let (written, left) = bytes.split_at(width.bytes());
        self.write_all(rt, written)?;
        let fits = left.iter().all(|b| *b == 0);
        if !fits && value.cast_signed() >= 0 {
            print::ill_formed(rt)?;
        }
        Ok(())
    }

    // The last n bytes, so many times more.
    fn repeat(&mut self, rt: &impl Print, n: usize, times: usize) -> io::Result<()>
        ensures { Kept self.old self.new }
    {
        let count = (n % REPEATED_BELOW) * (times % REPEATED_BELOW);
        for _place in self.at..self.at.wrapping_add(count) {
            let from = self.at.wrapping_sub(n);
            let last = self.memory.get(from).copied();
            self.write(rt, last.unwrap_or(b'\n'))?;
        }
        Ok(())
    }

    // The words 0, 1, 2 and so on, at each n bytes.
    fn write_rising(&mut self, rt: &impl Print, n: usize, times: usize) -> io::Result<()>
        ensures { Kept self.old self.new }
    {
        for word in 0..times {
            self.write_number(rt, word, Width::Word)?;
            self.at = self.at.wrapping_add(n.wrapping_sub(2));
        }
        Ok(())
    }

    // Text up to its first quote.
    fn write_text(&mut self, rt: &impl Print, text: &[u8]) -> io::Result<()>
        ensures { Kept self.old self.new }
    {
        self.write_all(rt, up_to(text, b'"'))
    }

    fn write_all(&mut self, rt: &impl Print, bytes: &[u8]) -> io::Result<()>
        ensures kept { Kept self.old self.new }
        ensures goes_on { GoesOn self.old (length bytes.now) self.new }
    {
        for b in bytes {
            self.write(rt, *b)?;
        }
        Ok(())
    }

    // Writing goes on behind the byte, and so does the part, unless it was longer already.
    fn write(&mut self, rt: &impl Print, byte: u8) -> io::Result<()>
        ensures kept { Kept self.old self.new }
        ensures goes_on { GoesOn self.old 1 self.new }
        ensures fits { self.old.at < length self.old.memory.now → IsOk result }
    {
        let at = self.at;
        if self.memory.len() <= at {
            return print::ill_formed(rt);
        }
        self.memory[at] = byte;
        self.at = at + 1;
        match self.part {
            Part::With => self.ends.with = self.ends.with.max(self.at),
            Part::File => self.ends.file = self.ends.file.max(self.at),
        }
        Ok(())
    }
}

#[cfg(test)]
mod tests {
    use super::*;

    #[test]
    fn a_new_store_lends_what_is_written(rt: HostRuntime) -> io::Result<()> {
        let mut memory = [0; MEMORY];
        let mut store = Store::new(&mut memory);
        assert_eq!(rt; store.with(), b"".as_slice());
        store.lend(b"with 258w \"ab\" # 7\nfile 9*2 nothing");
        assert_eq!(rt; store.with(), b"\x02\x01ab".as_slice());
        assert_eq!(rt; store.file(), b"\t\t".as_slice());
        assert_eq!(rt; store.take_faults(), 1);
        Ok(())
    }

    #[test]
    fn the_base_is_lent_first_and_faults_are_counted(rt: HostRuntime) -> io::Result<()> {
        let mut memory = [0; MEMORY];
        let mut store = Store::new(&mut memory);
        store.lend_both(b"with 1 nothing", b"2 300 file 3 at 9 1-1");
        assert_eq!(rt; store.with(), b"\x01\x02\x2c".as_slice());
        store.lend(b"nowhere");
        assert_eq!(rt; store.take_faults(), 5);
        assert_eq!(rt; store.take_faults(), 0);
        Ok(())
    }

    #[test]
    fn what_is_lent_printing_is_the_same(rt: HostRuntime) -> io::Result<()> {
        let mut memory = [0; MEMORY];
        let mut store = Store::new(&mut memory);
        assert_eq!(rt; store.with(), b"".as_slice());
        store.lend_printing(&rt, b"with 258w \"ab\" # 7\nfile 9*2 nothing")?;
        assert_eq!(rt; store.with(), b"\x02\x01ab".as_slice());
        assert_eq!(rt; store.file(), b"\t\t".as_slice());
        assert_eq!(rt; Word::try_from(b"nothing".as_slice()), Err(UnknownWord));
        Ok(())
    }
}
