// One bit of a byte, read and set, and a note of one bit for each of many numbers. Whoever notes something keeps the bits in a local
// array. The definitions are in specs/.
#![tactic(auto)]

ghost use Rattle.std.specs.Prelude.{◌≡◌, ◌*◌, ◌<◌};
ghost use Rattle.bits.specs.Bits.{bit_of, with_bit, is_noted, with_note};

pub fn bit_of(byte: u8, i: u8) -> bool
    requires { i < 8 }
    ensures { result ≡ bit_of byte i }
{
    (byte >> i) % 2 == 1
}

pub fn with_bit(byte: u8, i: u8) -> u8
    requires { i < 8 }
    ensures { result ≡ with_bit byte i }
{
    byte | (1 << i)
}

// Whether the number is noted.
pub fn is_noted<const SIZE: usize>(notes: &[u8; SIZE], n: usize) -> bool
    requires { n < 8 * SIZE }
    ensures { result ≡ is_noted SIZE notes.now n }
{
    bit_of(notes[n % SIZE], (n / SIZE) as u8)
}

// Whether the number was noted before. It is from now on.
pub fn note<const SIZE: usize>(notes: &mut [u8; SIZE], n: usize) -> bool
    requires { n < 8 * SIZE }
    ensures value { result ≡ is_noted SIZE notes.old n }
    ensures notes_after { notes.new ≡ with_note SIZE notes.old n }
{
    let place = n % SIZE;
    let bit = (n / SIZE) as u8;
    let byte = notes[place];
    notes[place] = with_bit(byte, bit);
    bit_of(byte, bit)
}
