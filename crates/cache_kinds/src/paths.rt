//! The numbers of paths.

ghost use Rattle.std.specs.Prelude.{◌≡◌, flat_map};
ghost use Rattle.flight_cache.specs.Meaning.{mixed_all};
ghost use Rattle.mask_keys.specs.Numbers.{point_numbers, seg_numbers};

use crate::words::{add_flag, add_length, add_word};
use ass_num::{Point, Seg};
use flight_cache::ShardSum;

fn add_point(point: &Point, sum: &mut ShardSum)
    ensures { sum.new ≡ mixed_all sum.old (point_numbers point.now) }
{
    add_word(point.x, sum);
    add_word(point.y, sum);
}

fn add_points(points: &[Point], sum: &mut ShardSum)
    ensures { sum.new ≡ mixed_all sum.old (flat_map point_numbers points.now) }
{
    for point in points {
        add_point(point, sum);
    }
}

fn add_segment(seg: &Seg, sum: &mut ShardSum)
    ensures { sum.new ≡ mixed_all sum.old (seg_numbers seg.now) }
{
    match seg {
        Seg::Move(to) => {
            sum.add(0);
            add_point(to, sum);
        }
        Seg::Line(to) => {
            sum.add(1);
            add_point(to, sum);
        }
        Seg::Cubic(first, second, to) => {
            sum.add(2);
            add_point(first, sum);
            add_point(second, sum);
            add_point(to, sum);
        }
        Seg::Spline(controls, closed) => {
            sum.add(3);
            add_length(controls.as_slice(), sum);
            add_points(controls.as_slice(), sum);
            add_flag(*closed, sum);
        }
    }
}

/// Adds the numbers of segments, one after another.
pub fn add_segments(segs: &[Seg], sum: &mut ShardSum)
    ensures { sum.new ≡ mixed_all sum.old (flat_map seg_numbers segs.now) }
{
    for seg in segs {
        add_segment(seg, sum);
    }
}
