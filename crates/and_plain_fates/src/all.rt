//! Several tests at once.
ghost use Rattle.std.specs.Prelude.{◌↔◌, IsTrue};

/// Whether all three hold.
pub(crate) fn all_three(a: bool, b: bool, c: bool) -> bool
    ensures { IsTrue result ↔ (IsTrue a × IsTrue b × IsTrue c) }
{
    a && b && c
}

/// Whether all four hold.
pub(crate) fn all_four(a: bool, b: bool, c: bool, d: bool) -> bool
    ensures { IsTrue result ↔ (IsTrue a × IsTrue b × IsTrue c × IsTrue d) }
{
    a && b && c && d
}
