// The five numbers of a settlement row, made of a raised baseline and a raised reading: neither has a sign.
ghost use Rattle.std.specs.Prelude.{◌≡◌, true, ◌+◌, ◌-◌, ◌*◌, ◌≤◌, ◌<◌, min, pos, ◌-ℤ◌, length};
ghost use Rattle.std.proofs.lemmas.List.Edits.{sets};
ghost use Rattle.grains.specs.Grains.{grains, grains_z};
ghost use Rattle.volumes.specs.Baseline.{complete};
ghost use Rattle.volumes.specs.Settlement.{row_width, limited, off_take_share, source_by, signed};
ghost use Rattle.settlement.specs.RaisedInner.{bias, greatest, baseline_of, watts_of};
ghost use Rattle.settlement.specs.RowsInner.{row_from, rows_from, largest, readings_from, AllAtMost};
ghost use Rattle.wire.specs.ReadingsInner.{raise};

use baseline::levels::raises;
use book::{Direction, Engagement, Point};
use grains::Grains;

// The numbers of a row.
pub const ROW_WIDTH: usize = 5;

// The bias of a level: three raises, one being that of a raised reading.
pub fn bias() -> u64
    ensures { result ≡ bias }
{
    raises(3)
}

// A raised reading in grains, with the bias of a level. Baseline `last_level` has this sum too: a public function of both would be this one line, and told in two
// ways, as grains here and by what it stands for there.
fn reading_grains(raised: u32) -> u64
    ensures { result ≡ grains (raised + 2 * raise) }
{
    Grains::from_watts(raised).count + raises(2)
}

// What a is above b, and `most` at most.
fn above(a: u64, b: u64, most: u64) -> u64
    ensures { result ≡ min (a - b) most }
{
    a.saturating_sub(b).min(most)
}

// What is off-take of a level, or of a reading with its bias.
fn off_take(biased: u64) -> u64
    ensures { result ≡ biased - bias }
{
    biased.saturating_sub(bias())
}

// a less b.
fn difference(a: u64, b: u64) -> i64
    requires { (a < 9223372036854775808) × (b < 9223372036854775808) }
    ensures { result ≡ pos a -ℤ pos b }
{
    (a as i64) - (b as i64)
}

// The baseline of a raised one.
pub fn baseline_of(level: u64) -> i64
    requires { level ≤ greatest }
    ensures { result ≡ baseline_of level }
{
    difference(level, bias())
}

// What an engagement's rows depend on besides its baselines and readings: its delivery point, and the book's version.
// Its methods take it by value: where they borrow it, the compiler tests the direction in each row, and not once for all.
#[derive(Clone, Copy, Debug, PartialEq, Eq)]
pub struct Terms {
    pub version: u16,
    pub e: Engagement,
    pub point: Point,
}

impl Terms {
    // The register's largest watts in the engagement's direction.
    #[tactic(auto, unfolding(crate::specs::RowsInner::largest))]
    fn largest(self) -> u32
        ensures { result ≡ largest self.e.direction self.point }
    {
        match self.e.direction {
            Direction::Up => self.point.upward,
            Direction::Down => self.point.downward,
        }
    }

    // What a is above b upward, and b above a downward, `most` at most.
    #[tactic(auto, unfolding(volumes::specs::Settlement::off_take_share, volumes::specs::Settlement::off_take_difference, volumes::specs::Settlement::off_take_of))]
    fn ahead(self, a: u64, b: u64, most: u64) -> u64
        ensures { result ≡ off_take_share self.e.direction (pos a) (pos b) most }
    {
        match self.e.direction {
            Direction::Up => above(a, b, most),
            Direction::Down => above(b, a, most),
        }
    }

    // The delivered volume, in grains, limited to the largest watts.
    fn delivered(self, level: u64, raised: u32) -> u64
        ensures { (result ≡ limited (signed self.e.direction (baseline_of level -ℤ grains_z (watts_of raised))) (largest self.e.direction self.point)) × (result ≤ grains 4294967295) }
    {
        let reading = reading_grains(raised);
        let limit = Grains::from_watts(self.largest()).count;
        self.ahead(level, reading, limit)
    }

    // Of a delivered volume what the source party gets: all of it, or from version 2 on, as the off-take party, what is off-take.
    fn source_volume(self, level: u64, raised: u32, volume: u64) -> u64
        ensures { result ≡ source_by self.version self.e.direction (baseline_of level) (grains_z (watts_of raised)) volume }
    {
        if !book::header::splits(self.version) {
            return volume;
        }
        let base = off_take(level);
        let read = off_take(reading_grains(raised));
        self.ahead(base, read, volume)
    }

    // A party's correction, a less b: "negated downward".
    fn correction(self, a: u64, b: u64) -> i64
        requires { (a < 9223372036854775808) × (b < 9223372036854775808) }
        ensures { result ≡ signed self.e.direction (pos a -ℤ pos b) }
    {
        match self.e.direction {
            Direction::Up => difference(a, b),
            Direction::Down => difference(b, a),
        }
    }

    // A quarter-hour's row: baseline, delivered volume, and the source, FSP and injection corrections. They are stored one by one: an array would be
    // copied, which takes longer.
    pub fn write_row(self, level: u64, raised: u32, row: &mut [i64])
        requires { (row_width ≤ length row.old) × (level ≤ greatest) }
        ensures { row.new ≡ sets row.old 0 (row_from self.version self.e.direction self.point (grains self.e.requested) (baseline_of level) (watts_of raised)) }
    {
        let volume = self.delivered(level, raised);
        let source = self.source_volume(level, raised, volume);
        let asked = Grains::from_watts(self.e.requested).count;
        row[0] = baseline_of(level);
        row[1] = difference(volume, 0);
        row[2] = self.correction(source, 0);
        row[3] = self.correction(asked, volume);
        row[4] = self.correction(volume, source);
    }

    // The engagement's rows: `levels` starts with its raised baselines, and its own readings start at reading `first`. Rows go by place, since nothing tells what
    // a slice ends as whose chunks are written; levels and readings go by the same place.
    pub fn write_rows(self, levels: &[u64], readings: &[u8], first: usize, out: &mut [i64])
        requires { (row_width * self.e.count ≤ length out.old) × (self.e.count ≤ length levels.now) × AllAtMost greatest self.e.count levels.now × (4 * (first + self.e.count) ≤ length readings.now) × (complete (readings_from self.e readings.now first) ≡ true) }
        ensures { out.new ≡ sets out.old 0 (rows_from self.version self.e self.point levels.now readings.now first) }
    {
        for k in 0..self.e.count as usize {
            let raised = wire::raised_at(readings, first + k).unwrap_or(0);
            self.write_row(levels[k], raised, &mut out[ROW_WIDTH * k..]);
        }
    }
}
