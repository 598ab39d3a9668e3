//! Whether tables hold the operations that are needed.
ghost use Rattle.std.specs.Prelude.{◌≡◌, ◌<◌, ◌≤◌, Ok, Err, IfOk};

/// The tables stand at fewer operations than are needed.
#[derive(Debug, Clone, Copy, PartialEq, Eq)]
pub struct Behind {
    /// How many operations the tables have.
    pub at: u32,
}

/// The tables' number, where it is not below what is needed.
pub(crate) fn reached(at: u32, need: u32) -> Result<u32, Behind>
    ensures behind { at < need → result ≡ Err (record { at = at }) }
    ensures reached { need ≤ at → result ≡ Ok at }
    ensures number { IfOk result (λ n. n ≡ at) }
{
    if at < need {
        return Err(Behind { at });
    }
    Ok(at)
}
