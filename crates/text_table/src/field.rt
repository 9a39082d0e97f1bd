// A name that a text map knows, what it holds and what it is by default (W-206).

// What a field holds.
#[derive(Clone, Copy, PartialEq, Eq)]
pub enum Holds {
    Whole,
    Decimal,
    String,
    Flag,
}

// What a field is where no value is given: nothing, so that one must be given; 0, false or no string; -1; 160; 0 or -1 by
// the namespace.
#[derive(Clone, Copy, PartialEq, Eq)]
pub enum Fallback {
    Required,
    Zero,
    MinusOne,
    Light,
    ByNamespace,
}

#[derive(Clone, Copy)]
pub struct Field {
    pub name: &'static [u8],
    pub holds: Holds,
    pub default: Fallback,
}
