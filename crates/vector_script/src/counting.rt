// A printer that prints nothing: it counts how often it is asked to, and never fails.
use std::cell::Cell;
use std::fmt::Display;
use std::io;

#[derive(Default, Drop)]
pub(crate) struct Count {
    places: Cell<usize>,
}

impl Count {
    pub(crate) fn places(&self) -> usize {
        self.places.get()
    }

    fn add_one(&self) {
        self.places.set(self.places.get().saturating_add(1));
    }
}

impl Print for Count {
    fn print<D: Display + Drop>(&self, _value: D) -> io::Result<()> {
        self.add_one();
        Ok(())
    }

    fn println<D: Display + Drop>(&self, _value: D) -> io::Result<()> {
        self.add_one();
        Ok(())
    }

    fn write_all(&self, _bytes: &[u8]) -> io::Result<()> {
        self.add_one();
        Ok(())
    }
}
