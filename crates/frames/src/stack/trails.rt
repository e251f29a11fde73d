// The trail of the open frames.
use crate::frame::TrailRecord;
use crate::stack::Frames;
use crate::trail::write_records;

impl Frames {
    ghost use Rattle.std.specs.Prelude.{◌≡◌, ◌<◌, ◌≤◌, ◌++◌, drop, length, map};
    ghost use Rattle.meaning.specs.Hosts.{Host};
    ghost use Rattle.meaning.specs.Frames.{sixteen, trail_of};
    ghost use Rattle.frames.specs.Trails.{trail_for};
    ghost use Rattle.frames.specs.Views.{around_in, open_in, trail_record_of};

    /// Writes the trail into the first sixteen records, where there are so many.
    pub fn write_trail(&self, trail: &mut [TrailRecord])
        ensures written { 16 ≤ length trail.old → trail.new ≡ trail_for (open_in self.now) ++ drop 16 trail.old }
        ensures means { 16 ≤ length trail.old → (h : Host) → map trail_record_of trail.new ≡ sixteen (trail_of (around_in h self.now)) ++ map trail_record_of (drop 16 trail.old) }
        ensures short { length trail.old < 16 → trail.new ≡ trail.old }
    {
        write_records(self.open_frames(), trail);
    }
}
