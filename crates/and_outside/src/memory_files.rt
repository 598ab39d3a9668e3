//! Files that are kept in memory.
ghost use Rattle.std.specs.Prelude.{◌≡◌, ◌≢◌, ◌≤◌, ◌<◌, ◌+◌, ◌↔◌, ◌⊎◌, ℕ, List, length, MatchResult, IfOk, IfErr, OnOk, OnErr, IsErr, IsErrOf, IsTrue, Some, true, All, IfSome, option_map, vec_len, ◌++◌, if◌then◌else◌, None, false};
ghost use Rattle.std.specs.Vec.{vec_capacity};
ghost use Rattle.and_outside.specs.Causes.{Rose, RoseBy, TellsLength, raised};
ghost use Rattle.and_outside.specs.Disk.{counts_of};
ghost use Rattle.and_outside.specs.Memory.{content_of, disk_of, empty_shelf, with_file, begun, read_fails, after_failed_read, after_read, write_fails, after_write};
ghost use Rattle.and_outside.specs.Places.{kept_in, IsWithin, content_at};

use crate::answer::{Failed, NoMemory, ReadAnswer};
use crate::counts::Counts;
use crate::files::Files;
use crate::numbers::is_failing;
use crate::place::Place;
use std::alloc::Global;
use std::marker::Model;

/// Keeps whole files, tells all of them, and fails the calls whose numbers it was told. Reads and
/// writes are counted together, from 0.
#[derive(Drop)]
pub struct MemoryFiles {
    // Names and contents, one after another.
    bytes: Vec<u8>,
    // The oldest first: the last of a name is its content.
    places: Vec<Place>,
    failing: Vec<u32>,
    next: u64,
    places_left: u32,
    room: u64,
    read_faults: u64,
    write_faults: u64,
    taken: u64,
    before: Counts,
}

impl Model for MemoryFiles {
    ghost use Rattle.std.specs.Prelude.{◌≤◌, ◌+◌, vec_len, All};
    ghost use Rattle.std.specs.Vec.{vec_capacity};
    ghost use Rattle.and_outside.specs.Memory.{Shelf};
    ghost use Rattle.and_outside.specs.Places.{kept_in, IsWithin};

    ghost Value = { Shelf };

    ghost view = { λ f. record {
      kept = kept_in f.bytes.items f.places.items;
      failing = f.failing.items;
      next = f.next;
      places = f.places_left;
      room = f.room;
      read_faults = f.read_faults;
      write_faults = f.write_faults;
      taken = f.taken;
      before = f.before;
    } };

    // The memory for all that is still to come is there, and every place is among the bytes.
    ghost invariant = { λ f. (vec_len f.bytes + f.room ≤ vec_capacity f.bytes)
        × (vec_len f.places + f.places_left ≤ vec_capacity f.places)
        × All (IsWithin (vec_len f.bytes)) f.places.items };
}

impl MemoryFiles {
    /// Holds nothing yet. It has so many places for files, and room for so many bytes of names and
    /// contents, and takes all memory for them here. The calls with these numbers fail.
    pub fn make(
        alloc: Global,
        files: u32,
        room: u64,
        failing: &[u32],
    ) -> Result<MemoryFiles, NoMemory>
        ensures { IfOk result (λ f. f ≡ empty_shelf files room failing.now) }
    {
        let Ok(bytes) = Vec::with_capacity(alloc, room as usize) else {
            return Err(NoMemory);
        };
        let Ok(places) = Vec::with_capacity(alloc, files as usize) else {
            return Err(NoMemory);
        };
        let Ok(failing) = Vec::from_slice(alloc, failing) else {
            return Err(NoMemory);
        };
        Ok(MemoryFiles {
            bytes,
            places,
            failing,
            next: 0,
            places_left: files,
            room,
            read_faults: 0,
            write_faults: 0,
            taken: 0,
            before: Counts {
                read_faults: 0,
                write_faults: 0,
                taken: 0,
            },
        })
    }

    /// Makes the bytes the content of the name. It is no counted call. It uses one place and the
    /// bytes of the name and the content, and gives none back where the name was there before.
    pub fn hold(&mut self, name: &str, bytes: &[u8])
        requires place { 0 < self.old.places }
        requires room { length name.now + length bytes.now ≤ self.old.room }
        ensures { self.new ≡ with_file self.old name.now bytes.now }
    {
        let name_at = self.bytes.len();
        append(&mut self.bytes, name.as_bytes());
        let bytes_at = self.bytes.len();
        append(&mut self.bytes, bytes);
        let end = self.bytes.len();
        self.places.push_reserved(Place {
            name: name_at,
            bytes: bytes_at,
            end,
        });
        self.places_left -= 1;
        self.room -= (name.len() + bytes.len()) as u64;
    }

    /// Whether the next write, of so many bytes, fails.
    fn refuses(&self, name: &str, bytes: &[u8]) -> bool
        ensures { result ≡ write_fails self.now name.now bytes.now }
    {
        is_failing(&self.failing, self.next)
            || self.places_left == 0
            || self.room < (name.len() + bytes.len()) as u64
    }

    /// Counts a call that begins.
    fn begin(&mut self)
        ensures { self.new ≡ begun self.old }
    {
        self.next = self.next.saturating_add(1);
        self.before = Counts {
            read_faults: self.read_faults,
            write_faults: self.write_faults,
            taken: self.taken,
        };
    }
}

impl Files for MemoryFiles {
    ghost disk = { λ f. disk_of f };

    /// Fails exactly where the number of the call is in the list or the name is not there. All of a
    /// content that is there counts as taken.
    fn read(&mut self, alloc: Global, name: &str, limit: u64) -> Result<Vec<u8>, ReadAnswer>
        ensures within { IfOk result (λ v. length v.items ≤ limit) }
        ensures told { (t : List ℕ) → (disk_of self.old).content name.now ≡ Some t → IfOk result (λ v. v.items ≡ t) }
        ensures failed { IfErr result (λ e. e ≡ ReadAnswer.Failed → Rose (disk_of self.old).read_faults (disk_of self.new).read_faults) }
        ensures calm_told { (t : List ℕ) → (disk_of self.old).content name.now ≡ Some t → (disk_of self.old).calm ≡ true
            → IfErr result (λ e. e ≢ ReadAnswer.Failed) }
        ensures too_long { IfErr result (λ e. e ≡ ReadAnswer.TooLong → RoseBy limit (disk_of self.old).taken (disk_of self.new).taken) }
        ensures exact { (t : List ℕ) → (disk_of self.old).content name.now ≡ Some t
            → ((disk_of self.old).calm ≡ true) ⊎ (¬ Rose (disk_of self.old).read_faults (disk_of self.new).read_faults)
            → MatchResult result (λ _. length t ≤ limit) (λ e. TellsLength e limit (length t)) }
        ensures contents_stay { (n : List ℕ) → (disk_of self.new).content n ≡ (disk_of self.old).content n }
        ensures calm_stays { (disk_of self.old).calm ≡ true → (disk_of self.new).calm ≡ true }
        ensures tells_stays { (disk_of self.old).tells ≡ true → (disk_of self.new).tells ≡ true }
        ensures counts { ((disk_of self.old).read_faults ≤ (disk_of self.new).read_faults) × ((disk_of self.new).write_faults ≡ (disk_of self.old).write_faults)
            × ((disk_of self.old).taken ≤ (disk_of self.new).taken) }
        ensures call { ((disk_of self.new).calls ≡ raised 1 (disk_of self.old).calls) × ((disk_of self.new).before ≡ counts_of (disk_of self.old)) }
        ensures fails { IsErrOf result ReadAnswer.Failed ↔ IsTrue (read_fails self.old name.now) }
        ensures after_fault { IsTrue (read_fails self.old name.now) → self.new ≡ after_failed_read self.old }
        ensures after { (t : List ℕ) → read_fails self.old name.now ≡ false → content_of self.old.kept name.now ≡ Some t
            → self.new ≡ after_read self.old (length t) }
    {
        let fails = is_failing(&self.failing, self.next);
        self.begin();
        let found = find(&self.bytes, &self.places, name);
        let Some(place) = allowed(fails, found) else {
            self.read_faults = self.read_faults.saturating_add(1);
            return Err(ReadAnswer::Failed);
        };
        let content = &self.bytes[place.bytes..place.end];
        self.taken = self.taken.saturating_add(content.len() as u64);
        copy_within(alloc, content, limit)
    }

    /// Fails exactly where the number of the call is in the list, or where no place or not enough
    /// room is left. A write that fails uses nothing and leaves every name as it was.
    fn write(&mut self, name: &str, bytes: &[u8]) -> Result<(), Failed>
        ensures written { OnOk result ((t : List ℕ) → (disk_of self.new).content name.now ≡ Some t → t ≡ bytes.now) }
        ensures still_told { OnOk result ((t : List ℕ) → (disk_of self.old).content name.now ≡ Some t → (disk_of self.new).content name.now ≡ Some bytes.now) }
        ensures told { OnOk result ((disk_of self.old).tells ≡ true → (disk_of self.new).content name.now ≡ Some bytes.now) }
        ensures others_stay { (n : List ℕ) → n ≢ name.now → (disk_of self.new).content n ≡ (disk_of self.old).content n }
        ensures failed { OnErr result (Rose (disk_of self.old).write_faults (disk_of self.new).write_faults) }
        ensures calm_stays { (disk_of self.old).calm ≡ true → (disk_of self.new).calm ≡ true }
        ensures tells_stays { (disk_of self.old).tells ≡ true → (disk_of self.new).tells ≡ true }
        ensures counts { ((disk_of self.new).read_faults ≡ (disk_of self.old).read_faults) × ((disk_of self.old).write_faults ≤ (disk_of self.new).write_faults)
            × ((disk_of self.old).taken ≤ (disk_of self.new).taken) }
        ensures call { ((disk_of self.new).calls ≡ raised 1 (disk_of self.old).calls) × ((disk_of self.new).before ≡ counts_of (disk_of self.old)) }
        ensures fails { IsErr result ↔ IsTrue (write_fails self.old name.now bytes.now) }
        ensures after { self.new ≡ after_write self.old name.now bytes.now }
    {
        let refuses = self.refuses(name, bytes);
        self.begin();
        if refuses {
            self.write_faults = self.write_faults.saturating_add(1);
            return Err(Failed);
        }
        self.hold(name, bytes);
        Ok(())
    }
}

/// The place of the last content of the name.
fn find(bytes: &[u8], places: &[Place], name: &str) -> Option<Place>
    requires { All (IsWithin (length bytes.now)) places.now }
    ensures content { option_map (content_at bytes.now) result ≡ content_of (kept_in bytes.now places.now) name.now }
    ensures within { IfSome result (IsWithin (length bytes.now)) }
{
    let mut found = None;
    for place in places {
        if &bytes[place.name..place.bytes] == name.as_bytes() {
            found = Some(*place);
        }
    }
    found
}

/// What was found, unless the call is to fail.
fn allowed(fails: bool, found: Option<Place>) -> Option<Place>
    ensures { result ≡ (if fails then None else found) }
{
    if fails { None } else { found }
}

/// A copy of the bytes, of which there may be so many.
fn copy_within(alloc: Global, bytes: &[u8], limit: u64) -> Result<Vec<u8>, ReadAnswer>
    ensures ok { IfOk result (λ v. (v.items ≡ bytes.now) × (length bytes.now ≤ limit)) }
    ensures err { IfErr result (λ e. TellsLength e limit (length bytes.now)) }
{
    if bytes.len() as u64 > limit {
        return Err(ReadAnswer::TooLong);
    }
    Vec::from_slice(alloc, bytes).map_err(|_| ReadAnswer::NoMemory)
}

/// Appends bytes for which there is room.
fn append(all: &mut Vec<u8>, bytes: &[u8])
    requires { vec_len all.old + length bytes.now ≤ vec_capacity all.old }
    ensures items { all.new.items ≡ all.old.items ++ bytes.now }
    ensures len { vec_len all.new ≡ vec_len all.old + length bytes.now }
    ensures capacity { vec_capacity all.old ≤ vec_capacity all.new }
{
    let _ = all.extend_from_slice(bytes);
}
