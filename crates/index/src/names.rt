// A name as an index has it.
ghost use Rattle.std.specs.Prelude.{◌≡◌, length};
ghost use Rattle.index.specs.Records.{padded};

// A name's eight bytes, zeros after the first zero.
pub fn padded(name: &[u8]) -> [u8; 8]
    requires { length name.now ≡ 8 }
    ensures { result ≡ padded name.now }
{
    let mut bytes = [0; 8];
    for (i, &c) in name.iter().enumerate() {
        if c == 0 {
            return bytes;
        }
        bytes[i] = c;
    }
    bytes
}
