// Answers as text: numbers, each after a space.
ghost use Rattle.std.specs.Prelude.{Some};
ghost use Rattle.vector_script.specs.Script.{verdict_text};

use refusal::Status;
use std::fmt::{Display, Formatter};
use std::{fmt, io};

pub fn ill_formed(rt: &impl Print) -> io::Result<()> {
    print!(rt; " ILL-FORMED\n")
}

pub fn faults(rt: &impl Print, count: usize) -> io::Result<()> {
    for _ in 0..count {
        ill_formed(rt)?;
    }
    Ok(())
}

// A refusal is its number, place and record.
#[derive(Clone, Copy)]
pub struct Verdict(pub Status);

impl Display for Verdict {
    ghost output = { λ v. Some (verdict_text v.0) };

    fn fmt<W: fmt::Write>(&self, f: &mut Formatter<W>) -> fmt::Result {
        let Verdict(status) = self;
        if status.number == 0 {
            return write!(f, " pass");
        }
        write!(
            f,
            " refused {} {} {}",
            status.number, status.place, status.record
        )
    }
}

// Each after a space. It states no `output`, since that of an element may be unknown.
#[derive(Clone, Copy)]
pub struct Each<'a, T>(pub &'a [T]);

impl<T: Display> Display for Each<'_, T> {
    fn fmt<W: fmt::Write>(&self, f: &mut Formatter<W>) -> fmt::Result {
        for n in self.0 {
            write!(f, " {n}")?;
        }
        Ok(())
    }
}

// A run of the same is printed as 0*8. It states no `output`, as `Each` states none.
#[derive(Clone, Copy)]
pub struct Runs<'a, T>(pub &'a [T]);

impl<T: Display + PartialEq> Display for Runs<'_, T> {
    fn fmt<W: fmt::Write>(&self, f: &mut Formatter<W>) -> fmt::Result {
        for run in self.0.chunk_by(|a, b| a == b) {
            match run {
                [] => {}
                [n] => write!(f, " {n}")?,
                [n, ..] => write!(f, " {n}*{}", run.len())?,
            }
        }
        Ok(())
    }
}
