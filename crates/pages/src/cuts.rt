// What stands behind the text.
ghost use Rattle.std.specs.Prelude.{◌≡◌, ◌<◌, ◌≤◌, length, take};
ghost use Rattle.meaning.specs.Calls.{filled as with_zeros};

/// Zeros from the end of the text to the end of the buffer.
pub fn zero_rest(out: &mut [u8], filled: usize)
    ensures zeros { filled ≤ length out.old → out.new ≡ with_zeros (length out.old) (take filled out.old) }
    ensures past { length out.old < filled → out.new ≡ out.old }
{
    if filled <= out.len() {
        out[filled..].fill(0);
    }
}
