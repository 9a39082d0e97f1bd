// The header of a lump that is written.
ghost use Rattle.std.specs.Prelude.{◌≡◌, ◌≤◌, length};
ghost use Rattle.std.proofs.lemmas.List.Edits.{sets};
ghost use Rattle.picture_header.specs.declared.Picture.{Picture};
ghost use Rattle.picture_write.specs.Lump.{header_bytes};

use picture_header::Picture;

// Width, height and both offsets.
pub fn write_header(picture: Picture, out: &mut [u8])
    requires { (picture.width ≤ 320) × (picture.height ≤ 200) × (8 ≤ length out.old) }
    ensures { out.new ≡ sets out.old 0 (header_bytes picture) }
{
    endian::put_u16(out, 0, picture.width as u16);
    endian::put_u16(out, 2, picture.height as u16);
    endian::put_i16(out, 4, picture.left);
    endian::put_i16(out, 6, picture.top);
}
