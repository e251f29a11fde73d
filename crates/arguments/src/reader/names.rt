// The bytes of a cycle name.
ghost use Rattle.std.specs.Prelude.{◌≡◌, ◌-◌, ◌≤◌, drop, replicate};

const LONGEST: usize = 128;

/// At most 128 bytes, with zeros behind them, so that two are equal just where their bytes are.
#[derive(Clone, Copy, Debug, PartialEq, Eq)]
pub struct NameBytes {
    bytes: [u8; LONGEST],
    len: usize,
    ghost inside: { len ≤ 128 },
    ghost zeros: { drop len bytes ≡ replicate (128 - len) 0 },
}

impl NameBytes {
    ghost use Rattle.std.specs.Prelude.{◌≡◌, ◌≤◌, ◌↔◌, length, IsSome, IfSome};
    ghost use Rattle.arguments.specs.Names.{bytes_of};

    /// These bytes, unless they are more than 128.
    pub fn new(bytes: &[u8]) -> Option<NameBytes>
        ensures fits { IsSome result ↔ (length bytes.now ≤ 128) }
        ensures is { IfSome result (λ n. bytes_of n ≡ bytes.now) }
    {
        let len = bytes.len();
        if len > LONGEST {
            return None;
        }
        let mut padded = [0; LONGEST];
        padded[..len].copy_from_slice(bytes);
        Some(NameBytes { bytes: padded, len })
    }

    /// The bytes.
    pub fn as_slice(&self) -> &[u8]
        ensures value { result.now ≡ bytes_of self.now }
        ensures short { length result.now ≤ 128 }
    {
        &self.bytes[..self.len]
    }
}
