// The days with an engagement, by point: for each point a u64 with the bits of its days, as the excluded days are told.
ghost use Rattle.std.specs.Prelude.{◌≡◌, ◌||◌, ℕ, ◌<◌, eqb, length};
ghost use Rattle.book.specs.Register.{excludes};
ghost use Rattle.settlement.specs.DaysInner.{Gatherable, Gathers};

// As many points as a book can have.
pub const MOST_POINTS: usize = 256;

// The days of a mask, and one more.
fn with_day(mask: u64, day: u32) -> u64
    requires { day < 64 }
    ensures { (d : ℕ) → excludes result d ≡ (excludes mask d || eqb day d) }
{
    mask | (1u64 << day)
}

// Adds the day of each engagement to those of its point. By row number: see book `row_at`.
pub fn gather_days(engagements: &[u8], engaged: &mut [u64])
    requires { Gatherable engagements.now (length engaged.old) }
    ensures { Gathers engagements.now engaged.old engaged.new }
{
    for i in 0..engagements.len() / 16 {
        let e = book::engagements::engagement_at(engagements, i);
        let p = e.point as usize;
        engaged[p] = with_day(engaged[p], e.day as u32);
    }
}
