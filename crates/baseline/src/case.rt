// An engagement's case: all that is looked at to judge and to settle it.
ghost use Rattle.baseline.specs.ShownInner.{Fits};

use crate::shown::Shown;

// What a book shows of the engagement, the category of each day of the calendar, and the readings of the engagement's point, from the calendar's first quarter-hour on.
// More may stand behind these readings.
#[derive(Clone, Copy, Debug, PartialEq, Eq)]
pub struct Case<'a> {
    pub shown: Shown,
    pub calendar: &'a [u8],
    pub readings: &'a [u8],
    pub ghost fits: { Fits shown calendar.now readings.now },
}
