// A name as one number: comparing two numbers compares two names.
ghost use Rattle.std.specs.Prelude.{◌≡◌};
ghost use Rattle.endian.specs.Unsigned.{Bytes};
ghost use Rattle.index.specs.Keys.{key_of};

// Eight bytes, the first one highest.
pub fn key_of(name: [u8; 8]) -> u64
    ensures { (result ≡ key_of 8 name) × Bytes name }
{
    u64::from_be_bytes(name)
}
