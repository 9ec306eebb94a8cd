// The rule on the schedule's entries.
ghost use Rattle.std.specs.Prelude.{◌≡◌};
ghost use Rattle.refusal.specs.Refusal.{names_cores};

// Looks at the greatest entry alone: the loop that finds it has no way out, so that the compiler makes vector code of
// it.
pub fn names_cores(schedule: &[u8], cores: usize) -> bool
    ensures { result ≡ names_cores cores schedule.now }
{
    let greatest = schedule.iter().copied().max();
    greatest.is_none_or(|core| (core as usize) < cores)
}
