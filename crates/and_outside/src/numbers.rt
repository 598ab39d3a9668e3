//! The numbers of the calls that are to fail.
ghost use Rattle.std.specs.Prelude.{◌≡◌};
ghost use Rattle.and_outside.specs.Memory.{is_listed};

/// Whether the call with this number is to fail.
pub fn is_failing(failing: &[u32], number: u64) -> bool
    ensures { result ≡ is_listed failing.now number }
{
    failing.iter().any(|n| u64::from(*n) == number)
}
