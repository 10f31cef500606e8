// A run of readings, one after another, and their sum. A run is told by its first reading and their count, as the definitions do: a slice of its bytes, which
// counts 4 for each, would be no plainer.
ghost use Rattle.std.specs.Prelude.{◌+◌, ◌*◌, ◌≤◌, length};
ghost use Rattle.baseline.specs.TallyInner.{in_run, Tallied};
ghost use Rattle.quarters.specs.QuartersInner.{longest_day};

// The sum of n raised readings from reading `at` on, where none of them is missing. What the loop finds is looked at behind it: a way out of a loop keeps the
// compiler from taking several readings at once, and made the range test four times as long (docs/CHANGING.md).
#[inline]
#[tactic(auto, using(crate::proofs::CaseLaws::run_steps), unfolding(integers::specs::Ranges::range, volumes::specs::Baseline::complete))]
pub fn tally_run(readings: &[u8], at: usize, n: usize) -> Option<u64>
    requires { (4 * (at + n) ≤ length readings.now) × (n ≤ longest_day) }
    ensures { Tallied (in_run readings.now at n) n result }
{
    let mut whole = true;
    let mut sum: u64 = 0;
    for i in 0..n {
        match wire::raised_at(readings, at + i) {
            Some(raised) => sum += u64::from(raised),
            None => whole = false,
        }
    }
    if !whole {
        return None;
    }
    Some(sum)
}
