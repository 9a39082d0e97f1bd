// Notes on places of the lump that many columns can come to: one byte for each of the first four places of every 1,024. A row
// of posts of length 0 stands on one of these places, whatever its offset, and they take a small array. A note is a byte and no
// bool, since `skip_posts`, which other crates call, is lent bytes.
ghost use Rattle.std.specs.Prelude.{◌≡◌};
ghost use Rattle.picture.specs.Stepping.{is_noted, noted};

// Whether `at` is noted.
pub fn is_noted(notes: &[u8], at: usize) -> bool
    ensures { result ≡ is_noted notes.now at }
{
    if 4 <= at % 1024 {
        return false;
    }
    let slot = at / 1024 * 4 + at % 1024;
    if notes.len() <= slot {
        return false;
    }
    notes[slot] == 1
}

// Notes `at`, where it has a slot.
pub fn note(notes: &mut [u8], at: usize)
    ensures { notes.new ≡ noted notes.old at }
{
    if 4 <= at % 1024 {
        return;
    }
    let slot = at / 1024 * 4 + at % 1024;
    if notes.len() <= slot {
        return;
    }
    notes[slot] = 1;
}
