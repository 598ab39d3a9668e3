//! The files of the system.
ghost use Rattle.std.specs.Prelude.{◌≡◌, ◌≤◌};
ghost use Rattle.and_outside.specs.Causes.{Rose, raised};

use crate::answer::{Failed, ReadAnswer};
use crate::counts::Counts;
use crate::files::Files;
use crate::writing::write_all;
use std::alloc::Global;
use std::fs::File;
use std::io::Read;
use std::rt;

/// How many bytes one read of the system asks for.
const PIECE: usize = 65536;

/// The files of the system, of whose contents nothing is told. They are trusted to be what the
/// system says. Memory that is refused while a file is opened counts as a failure.
#[derive(Drop)]
pub struct RealFiles<R: rt::Files + Drop> {
    rt: R,
    calls: u64,
    counts: Counts,
    before: Counts,
}

/// The counts where nothing was read or written yet.
const NONE: Counts = Counts {
    read_faults: 0,
    write_faults: 0,
    taken: 0,
};

impl<R: rt::Files + Drop> RealFiles<R> {
    /// The files that this runtime reaches, with all counts at 0.
    pub fn make(rt: R) -> RealFiles<R>
        ensures counts { result.counts ≡ record { read_faults = 0; write_faults = 0; taken = 0 } }
        ensures calls { result.calls ≡ 0 }
    {
        RealFiles {
            rt,
            calls: 0,
            counts: NONE,
            before: NONE,
        }
    }

    /// Counts a read that failed.
    fn read_failed(&mut self) -> ReadAnswer
        ensures answer { result ≡ ReadAnswer.Failed }
        ensures rose { Rose self.old.counts.read_faults self.new.counts.read_faults × (self.old.counts.read_faults ≤ self.new.counts.read_faults) }
        ensures rest { (self.new.counts.write_faults ≡ self.old.counts.write_faults) × (self.new.counts.taken ≡ self.old.counts.taken) }
        ensures call { (self.new.calls ≡ self.old.calls) × (self.new.before ≡ self.old.before) }
    {
        self.counts.read_faults = self.counts.read_faults.saturating_add(1);
        ReadAnswer::Failed
    }

    /// Counts a call that begins.
    fn begin(&mut self)
        ensures call { (self.new.calls ≡ raised 1 self.old.calls) × (self.new.before ≡ self.old.counts) }
        ensures rest { self.new.counts ≡ self.old.counts }
    {
        self.calls = self.calls.saturating_add(1);
        self.before = self.counts;
    }

    /// Writes all bytes into a file of this name, and says whether that was done.
    fn store(&self, name: &str, bytes: &[u8]) -> bool {
        let Ok(mut file) = File::create(&self.rt, name) else {
            return false;
        };
        write_all(&mut file, bytes)
    }
}

impl<R: rt::Files + Drop> Files for RealFiles<R> {
    ghost use Rattle.std.specs.Prelude.{None, false};

    ghost disk = { λ f. record {
      read_faults = f.counts.read_faults;
      write_faults = f.counts.write_faults;
      taken = f.counts.taken;
      calm = false;
      tells = false;
      content = λ _. None;
      calls = f.calls;
      before = f.before;
    } };

    fn read(&mut self, alloc: Global, name: &str, limit: u64) -> Result<Vec<u8>, ReadAnswer> {
        self.begin();
        let Ok(mut file) = File::open(&self.rt, name) else {
            return Err(self.read_failed());
        };
        let mut bytes = Vec::new(alloc);
        let mut piece = [0u8; PIECE];
        for _ in 0..u64::MAX {
            let Ok(count) = file.read(&mut piece) else {
                return Err(self.read_failed());
            };
            self.counts.taken = self.counts.taken.saturating_add(count as u64);
            if count == 0 {
                return Ok(bytes);
            }
            if bytes.len() as u64 + count as u64 > limit {
                return Err(ReadAnswer::TooLong);
            }
            if bytes.extend_from_slice(&piece[..count]).is_err() {
                return Err(ReadAnswer::NoMemory);
            }
        }
        Err(self.read_failed())
    }

    fn write(&mut self, name: &str, bytes: &[u8]) -> Result<(), Failed> {
        self.begin();
        if self.store(name, bytes) {
            return Ok(());
        }
        self.counts.write_faults = self.counts.write_faults.saturating_add(1);
        Err(Failed)
    }
}
