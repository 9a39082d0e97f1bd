// Parts of a file. The number of bytes is what is asked for, and no buffer's length.
ghost use Rattle.std.specs.Prelude.{◌≡◌, ◌+◌, ◌≤◌, length};
ghost use Rattle.wad.specs.Slices.{part, part_if};

// The n bytes from at on.
pub fn part(s: &[u8], at: usize, n: usize) -> &[u8]
    requires { at + n ≤ length s.now }
    ensures { (result.now ≡ part s.now at n) × (length result.now ≡ n) }
{
    &s[at..at + n]
}

// The n bytes from at on where all of them lie inside, else none.
pub fn part_if(s: &[u8], at: usize, n: usize) -> &[u8]
    ensures { result.now ≡ part_if s.now at n }
{
    if s.len() < at {
        return &s[0..0];
    }
    if s.len() - at < n {
        return &s[0..0];
    }
    &s[at..at + n]
}
