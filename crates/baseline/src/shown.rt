// What a book shows of an engagement, besides its categories and readings, which are lent.
use book::{Engagement, Point};
use quarters::Calendar;

// The engagement, its delivery point, and X and Y of its day's category. The bits of `closed` are those of the days that can't be reference days: excluded
// ones, and those with an engagement of the point.
#[derive(Clone, Copy, Debug, PartialEq, Eq)]
pub struct Shown {
    pub c: Calendar,
    pub e: Engagement,
    pub point: Point,
    pub closed: u64,
    pub x: usize,
    pub y: usize,
}
