ghost use Rattle.std.specs.Prelude.{◌≡◌, ◌-◌, ◌≤◌, ◌++◌, length, replicate};

/// A value that a filter gave: a number, or a text in the answer buffer, by its length.
#[derive(Clone, Copy, PartialEq, Eq, Debug)]
pub enum Answer {
    Whole(i64),
    Text(usize),
}

// Leaves zeros in the answer buffer.
pub(crate) fn clear(answer: &mut [u8; 256])
    ensures { answer.new ≡ replicate 256 0 }
{
    *answer = [0; 256];
}

// Leaves the text in the answer buffer, and then zeros.
pub(crate) fn put(answer: &mut [u8; 256], text: &[u8])
    requires { length text.now ≤ 256 }
    ensures { answer.new ≡ text.now ++ replicate (256 - length text.now) 0 }
{
    clear(answer);
    let n = text.len();
    answer[0..n].copy_from_slice(text);
}
