// A field with the range that is allowed there: whether it is in it, and how it is written. The definitions are in specs/.
#![tactic(auto)]

ghost use Rattle.std.specs.Prelude.{◌≡◌, ◌≤◌, length};
ghost use Rattle.reason_range.specs.Fields.{in_range, field_check, put_field, FieldFits};

// A field of a record, or of BLOCKMAP.
#[derive(Clone, Copy, Default)]
pub struct Field {
    // where it stands, in bytes from the record's start, or the lump's
    pub offset: usize,
    // what it holds
    pub number: usize,
    // what is allowed there
    pub least: usize,
    pub most: usize,
}

impl Field {
    pub fn in_range(self) -> bool
        ensures { result ≡ in_range self }
    {
        (self.least <= self.number) & (self.number <= self.most)
    }

    // A field that is out of its range is itself the refusal.
    pub fn check(self) -> Result<(), Field>
        ensures { result ≡ field_check self }
    {
        if self.in_range() { Ok(()) } else { Err(self) }
    }
}

// The four numbers of a field into the first 16 bytes of an output.
pub fn put_field(out: &mut [u8], f: Field)
    requires { (16 ≤ length out.old) × FieldFits f }
    ensures { out.new ≡ put_field out.old f }
{
    endian::put_u32(out, 0, f.offset as u32);
    endian::put_u32(out, 4, f.number as u32);
    endian::put_u32(out, 8, f.least as u32);
    endian::put_u32(out, 12, f.most as u32);
}
