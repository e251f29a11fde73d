// What a fault leaves of the text.
use crate::frame::Frame;
use crate::stack::Frames;

impl Frames {
    ghost use Rattle.std.specs.Prelude.{◌≡◌, ℕ, ◌≤◌, List, length, take};
    ghost use Rattle.frames.specs.Cuts.{cutback};
    ghost use Rattle.frames.specs.Views.{open_in};

    /// How many of the bytes that are written stay where a fault ends the rendering now.
    pub fn cut_back(&self, filled: usize) -> usize
        ensures within { result ≤ filled }
        ensures cut { (out : List ℕ) → filled ≤ length out → take result out ≡ cutback (open_in self.now) (take filled out) }
    {
        let mut left = filled;
        let mut k = self.depth;
        while k > 0 {
            k -= 1;
            let frame = &self.table[k];
            left = frame.trimmed(left);
        }
        left
    }
}
