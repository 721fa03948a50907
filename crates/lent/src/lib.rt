// Memory that the caller lends, as bytes: what is put into it, and where. Copying is the slice's own `copy_from_slice`.
#![tactic(auto)]

ghost use Rattle.std.specs.Prelude.{◌≡◌, length, replicate};

// Writes v into all bytes of the part, by the slice's own `fill`, which promises this of bytes in more words.
pub fn fill(part: &mut [u8], v: u8)
    ensures { part.new ≡ replicate (length part.old) v }
{
    part.fill(v);
}
