// Grains, the unit of all results: "One watt is 30,240 grains; all results are whole grains."
// Watts become grains, and grains watts, here and nowhere else.
#![tactic(auto)]

ghost use Rattle.std.specs.Prelude.{◌≡◌, ◌*◌, ◌≤◌};
ghost use Rattle.grains.specs.Grains.{grains, whole_watts, share};
ghost use Rattle.grains.specs.GrainsInner.{Shares};

#[derive(Clone, Copy, Debug, PartialEq, Eq, PartialOrd, Ord)]
pub struct Grains {
    pub count: u64,
}

impl Grains {
    pub const PER_WATT: u64 = 30240;

    pub fn from_watts(watts: u32) -> Grains
        ensures { result.count ≡ grains watts }
    {
        Grains {
            count: (watts as u64) * Self::PER_WATT,
        }
    }

    // Whole watts, rounded down.
    pub fn down_to_watts(self) -> u64
        ensures { result ≡ whole_watts self.count }
    {
        self.count / Self::PER_WATT
    }

    // The mean of n numbers of watts, each a u32, that sum up to `sum`.
    #[tactic(auto, using(crate::specs::GrainsLaws::means))]
    pub fn mean(sum: u64, n: u64) -> Grains
        requires { Shares n × (sum ≤ 4294967295 * n) }
        ensures { result.count ≡ sum * share n }
    {
        Grains {
            count: sum * (Self::PER_WATT / n),
        }
    }
}
