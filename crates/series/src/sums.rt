// The watts of a series by position, from a book's delivered volumes.
ghost use Rattle.std.specs.Prelude.{◌≡◌, map, ℕ, ◌+◌, ◌^◌, ◌≤◌, ◌<◌, length, get_or};
ghost use Rattle.integers.specs.Ranges.{range};
ghost use Rattle.integers.specs.Running.{floor_at};
ghost use Rattle.grains.specs.Grains.{per_watt};
ghost use Rattle.series.specs.SumsInner.{by_position, cell_at, added, VolumesAddable, DeliveredIn, PartsOf};

use crate::FileSeries;
use book::Section;
use grains::Grains;
use quarters::RangedCalendar;

// A book that refusals 1 to 9 pass, and numbers that start with its delivered volumes; its calendar and the sections that a series is taken from.
#[derive(Clone, Copy, Debug, PartialEq, Eq)]
pub struct Delivered<'a> {
    pub book: &'a [u8],
    pub volumes: &'a [u64],
    pub c: RangedCalendar,
    pub register: &'a [u8],
    pub engagements: &'a [u8],
    pub ghost delivered: { DeliveredIn book.now volumes.now },
    pub ghost parts: { PartsOf book.now c.calendar register.now engagements.now },
}

// Adds delivered volumes to as many cells. By place beside the cells: with `iter_mut().zip(volumes)` a turn tells of the pair's iterator and no longer of the
// cells, so that what is added would be told in a second way.
fn add_volumes(grains: &mut [u64], volumes: &[u64])
    requires { VolumesAddable grains.old 0 volumes.now 0 (length grains.old) }
    ensures { grains.new ≡ added grains.old 0 (λ k. get_or volumes.now k 0) (length grains.old) }
{
    for (k, cell) in grains.iter_mut().enumerate() {
        *cell += volumes[k];
    }
}

// Grains to watts by position: what doesn't complete a watt is carried on.
pub fn fill_watts(cells: &mut [u64])
    requires { (k : ℕ) → k < length cells.old → get_or cells.old k 0 + per_watt ≤ 2 ^ 64 }
    ensures { cells.new ≡ map (floor_at per_watt (cell_at cells.old)) (range 1 (length cells.old)) }
{
    let mut carry: u64 = 0;
    for cell in cells {
        let sum = carry + *cell;
        *cell = Grains { count: sum }.down_to_watts();
        carry = sum % Grains::PER_WATT;
    }
}

impl<'a> Delivered<'a> {
    ghost use Rattle.book.specs.Book.{book_of};
    ghost use Rattle.quarters.specs.Quarters.{month_quarters};
    ghost use Rattle.volumes.specs.Series.{grains_at, series_watts};

    pub fn of(book: &'a [u8], volumes: &'a [u64]) -> Delivered<'a>
        requires { DeliveredIn book.now volumes.now }
        ensures { (result.book.now ≡ book.now) × (result.volumes.now ≡ volumes.now) }
    {
        Delivered {
            book,
            volumes,
            c: book::header::calendar_of(book),
            register: settlement::sections::section(book, Section::Register),
            engagements: settlement::sections::section(book, Section::Engagements),
        }
    }

    // Adds what the engagements deliver to a series, to cells that are 0. By row number: see book `row_at`.
    fn add_engagements(&self, s: FileSeries, grains: &mut [u64])
        requires { (month_quarters self.now.c.calendar ≤ length grains.old) × (grains.old ≡ by_position (λ p. 0) (month_quarters self.now.c.calendar) grains.old) }
        ensures { grains.new ≡ by_position (grains_at (book_of self.now.book.now) s.role.kind s.role.receiver s.series) (month_quarters self.now.c.calendar) grains.old }
    {
        let mut at = 0;
        for i in 0..self.engagements.len() / 16 {
            let e = book::engagements::engagement_at(self.engagements, i);
            let own = s.rows_of(self.register, e);
            let first = self.c.calendar.cell_of(e.day, e.first);
            add_volumes(&mut grains[first..first + own], &self.volumes[at..at + own]);
            at += e.count as usize;
        }
    }

    // The grains of a series by position.
    pub fn fill_grains(&self, s: FileSeries, grains: &mut [u64])
        requires { month_quarters (book_of self.now.book.now).calendar ≤ length grains.old }
        ensures { grains.new ≡ by_position (grains_at (book_of self.now.book.now) s.role.kind s.role.receiver s.series) (month_quarters (book_of self.now.book.now).calendar) grains.old }
    {
        grains[..self.c.month_quarters()].fill(0);
        self.add_engagements(s, grains);
    }

    // The watts of a series by position.
    pub fn series_watts(&self, s: FileSeries, watts: &mut [u64])
        requires { month_quarters (book_of self.now.book.now).calendar ≤ length watts.old }
        ensures { watts.new ≡ by_position (series_watts (book_of self.now.book.now) s.role.kind s.role.receiver s.series) (month_quarters (book_of self.now.book.now).calendar) watts.old }
    {
        self.fill_grains(s, watts);
        fill_watts(&mut watts[..self.c.month_quarters()]);
    }
}
