//! Files, by name.
ghost use Rattle.std.specs.Prelude.{◌≡◌, ◌≢◌, ◌≤◌, ◌<◌, ◌⊎◌, length, MatchResult, IfOk, IfErr, OnOk, OnErr, Some, true};
ghost use Rattle.and_outside.specs.Causes.{Rose, RoseBy, TellsLength, raised};
ghost use Rattle.and_outside.specs.Disk.{counts_of};

use crate::answer::{Failed, ReadAnswer};
use std::alloc::Global;

/// Whole files, which are read and written by their names.
///
/// A count that has reached 2^64 - 1 stays there, and then counts as risen in every clause.
pub trait Files {
    ghost use Rattle.std.specs.Prelude.{ℕ, List};
    ghost use Rattle.and_outside.specs.Disk.{Disk};

    // What the files mean at a moment: their counts, the contents that are told, how many calls were made, and the counts
    // as the last call found them.
    ghost disk: { Self → Disk };

    /// Reads a whole file of at most `limit` bytes.
    ///
    /// `Failed` comes only where `read_faults` rose in this call, and `TooLong` only where more
    /// than `limit` bytes were taken. `NoMemory` may always come.
    fn read(&mut self, alloc: Global, name: &str, limit: u64) -> Result<Vec<u8>, ReadAnswer>
        ensures within { IfOk result (λ v. length v.items ≤ limit) }
        ensures told { (t : List ℕ) → (disk self.old).content name.now ≡ Some t → IfOk result (λ v. v.items ≡ t) }
        ensures failed { IfErr result (λ e. e ≡ ReadAnswer.Failed → Rose (disk self.old).read_faults (disk self.new).read_faults) }
        ensures calm_told { (t : List ℕ) → (disk self.old).content name.now ≡ Some t → (disk self.old).calm ≡ true
            → IfErr result (λ e. e ≢ ReadAnswer.Failed) }
        ensures too_long { IfErr result (λ e. e ≡ ReadAnswer.TooLong → RoseBy limit (disk self.old).taken (disk self.new).taken) }
        ensures exact { (t : List ℕ) → (disk self.old).content name.now ≡ Some t
            → ((disk self.old).calm ≡ true) ⊎ (¬ Rose (disk self.old).read_faults (disk self.new).read_faults)
            → MatchResult result (λ _. length t ≤ limit) (λ e. TellsLength e limit (length t)) }
        ensures contents_stay { (n : List ℕ) → (disk self.new).content n ≡ (disk self.old).content n }
        ensures calm_stays { (disk self.old).calm ≡ true → (disk self.new).calm ≡ true }
        ensures tells_stays { (disk self.old).tells ≡ true → (disk self.new).tells ≡ true }
        ensures counts { ((disk self.old).read_faults ≤ (disk self.new).read_faults) × ((disk self.new).write_faults ≡ (disk self.old).write_faults)
            × ((disk self.old).taken ≤ (disk self.new).taken) }
        ensures call { ((disk self.new).calls ≡ raised 1 (disk self.old).calls) × ((disk self.new).before ≡ counts_of (disk self.old)) };

    /// Makes the bytes the content of the name, in place of what was there. Files that tell what they are given tell it.
    ///
    /// `Failed` comes only where `write_faults` rose in this call; then nothing is known of that
    /// name. All other names are as before.
    fn write(&mut self, name: &str, bytes: &[u8]) -> Result<(), Failed>
        ensures written { OnOk result ((t : List ℕ) → (disk self.new).content name.now ≡ Some t → t ≡ bytes.now) }
        ensures still_told { OnOk result ((t : List ℕ) → (disk self.old).content name.now ≡ Some t → (disk self.new).content name.now ≡ Some bytes.now) }
        ensures told { OnOk result ((disk self.old).tells ≡ true → (disk self.new).content name.now ≡ Some bytes.now) }
        ensures others_stay { (n : List ℕ) → n ≢ name.now → (disk self.new).content n ≡ (disk self.old).content n }
        ensures failed { OnErr result (Rose (disk self.old).write_faults (disk self.new).write_faults) }
        ensures calm_stays { (disk self.old).calm ≡ true → (disk self.new).calm ≡ true }
        ensures tells_stays { (disk self.old).tells ≡ true → (disk self.new).tells ≡ true }
        ensures counts { ((disk self.new).read_faults ≡ (disk self.old).read_faults) × ((disk self.old).write_faults ≤ (disk self.new).write_faults)
            × ((disk self.old).taken ≤ (disk self.new).taken) }
        ensures call { ((disk self.new).calls ≡ raised 1 (disk self.old).calls) × ((disk self.new).before ≡ counts_of (disk self.old)) };
}
