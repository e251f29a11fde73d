//! The trail of a fault.
ghost use Rattle.std.specs.Prelude.{◌≡◌, ◌+◌, ◌-◌, ◌<◌, ◌≤◌, ◌++◌, [], drop, get_or, length, map, replicate, reverse};
ghost use Rattle.meaning.specs.Frames.{sixteen};
ghost use Rattle.frames.specs.Trails.{record_for, trail_for};
ghost use Rattle.frames.specs.Views.{trail_record_of};

use crate::frame::{Frame, TrailRecord};

// How many records a trail has.
const RECORDS: usize = 16;

// The record `k` of the trail, where the open frames are given with the outermost first.
fn record_at(frames: &[Frame], k: usize) -> TrailRecord
    ensures { result ≡ get_or (map record_for (reverse frames.now)) k TrailRecord.Blank }
{
    if k < frames.len() {
        frames[frames.len() - 1 - k].trail_record()
    } else {
        TrailRecord::Blank
    }
}

// Writes the first sixteen records, where there are so many; the open frames are given with the outermost first.
pub(crate) fn write_records(frames: &[Frame], trail: &mut [TrailRecord])
    ensures written { 16 ≤ length trail.old → trail.new ≡ trail_for (reverse frames.now) ++ drop 16 trail.old }
    ensures short { length trail.old < 16 → trail.new ≡ trail.old }
{
    if trail.len() < RECORDS {
        return;
    }
    for k in 0..RECORDS {
        trail[k] = record_at(frames, k);
    }
}

/// The trail where no frame is open: sixteen blank records, where there are so many.
pub fn blank_trail(trail: &mut [TrailRecord])
    ensures written { 16 ≤ length trail.old → trail.new ≡ replicate 16 TrailRecord.Blank ++ drop 16 trail.old }
    ensures means { 16 ≤ length trail.old → map trail_record_of trail.new ≡ sixteen [] ++ map trail_record_of (drop 16 trail.old) }
    ensures short { length trail.old < 16 → trail.new ≡ trail.old }
{
    write_records(&[], trail);
}
