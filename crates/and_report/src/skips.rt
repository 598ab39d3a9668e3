//! How many frames were skipped, for each reason.
ghost use Rattle.std.specs.Prelude.{◌≡◌};
ghost use Rattle.and_report.specs.Report as report;

use and_events::SkipReason;
use and_policy::Skip;

/// How many frames are too long for an outer packet.
pub(crate) fn too_long(skipped: &[(u32, SkipReason)]) -> usize
    ensures { result ≡ report.skipped_for report.is_too_long skipped.now }
{
    skipped
        .iter()
        .filter(|s| match s.1 {
            SkipReason::Frame(Skip::TooLong) => true,
            _ => false,
        })
        .count()
}

/// How many frames are too short for an Ethernet header.
pub(crate) fn short(skipped: &[(u32, SkipReason)]) -> usize
    ensures { result ≡ report.skipped_for report.is_short skipped.now }
{
    skipped
        .iter()
        .filter(|s| match s.1 {
            SkipReason::Frame(Skip::Short) => true,
            _ => false,
        })
        .count()
}

/// How many frames are of another type than IPv4.
pub(crate) fn not_ip4(skipped: &[(u32, SkipReason)]) -> usize
    ensures { result ≡ report.skipped_for report.is_not_ip4 skipped.now }
{
    skipped
        .iter()
        .filter(|s| match s.1 {
            SkipReason::Frame(Skip::NotIp4) => true,
            _ => false,
        })
        .count()
}

/// How many frames are cut.
pub(crate) fn cut(skipped: &[(u32, SkipReason)]) -> usize
    ensures { result ≡ report.skipped_for report.is_cut skipped.now }
{
    skipped
        .iter()
        .filter(|s| match s.1 {
            SkipReason::Frame(Skip::Cut) => true,
            _ => false,
        })
        .count()
}

/// How many frames have a bad IPv4 header.
pub(crate) fn bad_ip4(skipped: &[(u32, SkipReason)]) -> usize
    ensures { result ≡ report.skipped_for report.is_bad_ip4 skipped.now }
{
    skipped
        .iter()
        .filter(|s| match s.1 {
            SkipReason::Frame(Skip::BadIp4) => true,
            _ => false,
        })
        .count()
}

/// How many frames have no room for their ports.
pub(crate) fn short_ports(skipped: &[(u32, SkipReason)]) -> usize
    ensures { result ≡ report.skipped_for report.is_short_ports skipped.now }
{
    skipped
        .iter()
        .filter(|s| match s.1 {
            SkipReason::Frame(Skip::ShortPorts) => true,
            _ => false,
        })
        .count()
}

/// How many frames come from no live VM.
pub(crate) fn no_source(skipped: &[(u32, SkipReason)]) -> usize
    ensures { result ≡ report.skipped_for report.is_no_source skipped.now }
{
    skipped
        .iter()
        .filter(|s| match s.1 {
            SkipReason::NoSource => true,
            _ => false,
        })
        .count()
}

/// How many frames come from a VM in a blackout.
pub(crate) fn paused_source(skipped: &[(u32, SkipReason)]) -> usize
    ensures { result ≡ report.skipped_for report.is_paused_source skipped.now }
{
    skipped
        .iter()
        .filter(|s| match s.1 {
            SkipReason::PausedSource => true,
            _ => false,
        })
        .count()
}
