// Why a run is refused.
ghost use Rattle.std.specs.Prelude.{◌≡◌, ◌<◌};
ghost use Rattle.refusal.specs.Refusal.{refusal_number};

// In the order of the tests.
#[derive(Clone, Copy, PartialEq, Eq, Debug)]
pub enum Refusal {
    MemoryLength,
    StatesLength,
    StateRule,
    ScheduleLength,
    NoSuchCore,
    LevelsLength,
    ReadOnlyLimit,
    VectorList,
    CacheLength,
    CacheEntry,
}

// The documents' number of a refusal; four bits hold every one.
impl From<Refusal> for u64 {
    ghost from_gives = { λ cause n. (n ≡ refusal_number cause) × (n < 16) };

    fn from(cause: Refusal) -> u64 {
        match cause {
            Refusal::MemoryLength => 1,
            Refusal::StatesLength => 2,
            Refusal::StateRule => 3,
            Refusal::ScheduleLength => 4,
            Refusal::NoSuchCore => 5,
            Refusal::LevelsLength => 11,
            Refusal::ReadOnlyLimit => 12,
            Refusal::VectorList => 13,
            Refusal::CacheLength => 6,
            Refusal::CacheEntry => 7,
        }
    }
}
