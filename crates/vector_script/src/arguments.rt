// What a question is asked with.
ghost use Rattle.std.specs.Prelude.{◌≡◌, ◌+◌, ◌*◌, ◌%◌, ◌<◌, IfOk, length, take, drop};
ghost use Rattle.std.specs.Int.{w16, cast_signed};
ghost use Rattle.vector_script.specs.Script.{part_between, number_at};

use crate::lending::{Store, WorkWords};
use crate::print;
use std::io;

// A copy has at most so many bytes.
pub const MOST_COPIED: usize = 64000;

// What is lent to a question. Where it asks for what is not there, this prints that the script is ill-formed.
#[derive(Drop)]
pub struct Loan<'a, R> {
    pub rt: &'a R,
    // What is asked with: numbers, the lowest byte first, and bytes.
    pub with: &'a [u8],
    pub file: &'a [u8],
    pub words: WorkWords,
}

impl<'a, R: Print> Loan<'a, R> {
    pub fn new(rt: &'a R, store: &'a Store<'_>) -> Loan<'a, R>
        ensures with { result.with.now ≡ part_between store.now.memory.now 0 store.now.ends.with }
        ensures file { result.file.now ≡ part_between store.now.memory.now 196608 store.now.ends.file }
        ensures words { result.words ≡ store.now.words }
    {
        Loan {
            rt,
            with: store.with(),
            file: store.file(),
            words: store.words(),
        }
    }

    // A number of 32 bits.
    pub fn number(&self, at: usize) -> io::Result<usize>
        ensures { IfOk result (λ n. (n ≡ number_at self.now.with.now at) × (n < 4294967296)) }
    {
        let number = self.with.get(at..).and_then(|rest| rest.first_chunk());
        match number {
            Some(bytes) => Ok(u32::from_le_bytes(*bytes) as usize),
            None => {
                print::ill_formed(self.rt)?;
                Ok(0)
            }
        }
    }

    // A coordinate, of which the lowest 16 bits count.
    pub fn coordinate(&self, at: usize) -> io::Result<i16>
        ensures { IfOk result (λ z. z ≡ cast_signed w16 (number_at self.now.with.now at % 65536)) }
    {
        let number = self.number(at)?;
        Ok(((number % 65536) as u16).cast_signed())
    }

    // The first number, of 64 bits.
    pub fn long_number(&self) -> io::Result<usize>
        ensures { IfOk result (λ n. n ≡ number_at self.now.with.now 0 + 4294967296 * number_at self.now.with.now 4) }
    {
        let low = self.number(0)?;
        let high = self.number(4)?;
        Ok(low + 4294967296 * high)
    }

    // The bytes that it is asked with, from a place on.
    pub fn rest(&self, from: usize) -> &'a [u8]
        ensures { result.now ≡ drop from self.now.with.now }
    {
        self.with.get(from..).unwrap_or_default()
    }

    // Bytes that have to be there.
    pub fn part(&self, bytes: &'a [u8], from: usize, to: usize) -> io::Result<&'a [u8]>
        ensures { IfOk result (λ part. part.now ≡ part_between bytes.now from to) }
    {
        match bytes.get(from..to) {
            Some(part) => Ok(part),
            None => {
                print::ill_formed(self.rt)?;
                Ok(&[])
            }
        }
    }

    // The file as two files: it is asked with the first one's length.
    pub fn two_files(&self) -> io::Result<(&'a [u8], &'a [u8])>
        ensures { IfOk result (λ files. (files.0.now ≡ part_between self.now.file.now 0 (number_at self.now.with.now 0))
            × (files.1.now ≡ drop (number_at self.now.with.now 0) self.now.file.now)) }
    {
        let length = self.number(0)?;
        let first = self.part(self.file, 0, length)?;
        let second = self.file.get(length..).unwrap_or_default();
        Ok((first, second))
    }

    // What is copied has to fit its copy.
    pub fn fits(&self, bytes: &[u8]) -> io::Result<()> {
        if MOST_COPIED < bytes.len() {
            print::ill_formed(self.rt)?;
        }
        Ok(())
    }

    // A copy to be written, in a buffer that is lent. Of too many bytes their number is taken modulo the limit and one.
    pub fn copy<'b>(&self, bytes: &[u8], buffer: &'b mut [u8; MOST_COPIED]) -> &'b mut [u8]
        ensures { result.now ≡ take (length bytes.now % 64001) bytes.now }
    {
        let length = bytes.len() % (MOST_COPIED + 1);
        let copied = &mut buffer[..length];
        copied.copy_from_slice(&bytes[..length]);
        copied
    }
}

#[cfg(test)]
mod tests {
    use super::*;
    use crate::lending::MEMORY;

    #[test]
    fn a_copy_has_the_same_bytes(rt: HostRuntime) -> io::Result<()> {
        let mut memory = [0; MEMORY];
        let mut store = Store::new(&mut memory);
        store.lend_printing(&rt, b"with 7d 1d file \"copied\"")?;
        let loan = Loan::new(&rt, &store);
        loan.fits(loan.file)?;
        let mut buffer = [0; MOST_COPIED];
        let copied = loan.copy(loan.file, &mut buffer);
        assert_eq!(rt; *copied, *b"copied".as_slice());
        assert_eq!(rt; loan.long_number()?, 4294967303);
        Ok(())
    }
}
