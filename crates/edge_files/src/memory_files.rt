//! Files in memory.

ghost use Rattle.std.specs.Prelude.{◌≡◌, ◌≢◌, ℕ, ◌<◌, ◌≤◌, ◌↔◌, ◌⊎◌, List, [], length, vec_len};
ghost use Rattle.std.specs.Prelude.{Some, None, IfSome, IsSomeAnd, option_map};
ghost use Rattle.std.specs.Prelude.{IfOk, IsErr, IsErrOf, OnOk, OnErr};
ghost use Rattle.edge_streams.specs.Faults.{Rises};
ghost use Rattle.edge_streams.specs.Memory.{new_plan, NextFails, after_call, after_failed_call};
ghost use Rattle.edge_files.specs.Named.{named_bytes, file_named};
ghost use Rattle.edge_files.specs.Stores.{Stores, KeepsOthers};

use crate::files::{FileFault, Files, StoreFault};
use edge_streams::FaultPlan;
use std::alloc::{AllocError, Global};
use std::collections::BTreeMap;
use std::marker::Model;

/// Named bytes in memory. It tells each file that it has.
#[derive(Drop)]
pub struct MemFiles {
    alloc: Global,
    files: BTreeMap<String, Vec<u8>>,
    plan: FaultPlan,
}

impl Model for MemFiles {
    ghost use Rattle.edge_files.specs.Named.{FilesState, named_bytes};

    ghost Value = { FilesState };

    ghost view = { λ s. record { files = named_bytes s.files; plan = s.plan } };
}

impl MemFiles {
    /// No files. `fails` are the calls that are to fail, counted from 1.
    pub fn new(alloc: Global, fails: Vec<u64>) -> MemFiles
        ensures { result ≡ record { files = []; plan = new_plan fails.items } }
    {
        MemFiles {
            alloc,
            files: BTreeMap::new(alloc),
            plan: FaultPlan::new(fails),
        }
    }

    /// Adds a file, in place of one of the same name.
    pub fn add(&mut self, name: &str, bytes: Vec<u8>) -> Result<(), AllocError>
        ensures added { OnOk result (file_named self.new.files name.now ≡ Some bytes.items) }
        ensures others { (other : List ℕ) → other ≢ name.now →
            file_named self.new.files other ≡ file_named self.old.files other }
        ensures err { OnErr result (self.new ≡ self.old) }
        ensures plan { self.new.plan ≡ self.old.plan }
    {
        let key = String::from_str(self.alloc, name)?;
        self.files.insert(key, bytes)?;
        Ok(())
    }

    /// How many calls failed. At its type's end the count stands still.
    pub fn faults(&self) -> u64
        ensures { result ≡ self.now.plan.faults }
    {
        self.plan.faults()
    }
}

/// The file of this name, where there is one. It is split off so that the proof of
/// `read_file` sees a file's bytes, and not the map.
fn find<'a>(files: &'a BTreeMap<String, Vec<u8>>, name: &str) -> Option<&'a Vec<u8>>
    ensures { option_map (λ bytes. bytes.now.items) result
        ≡ file_named (named_bytes files.now) name.now }
{
    files.get(name)
}

/// A copy of a file's bytes, where they are at most `limit`.
fn copy(alloc: Global, bytes: &[u8], limit: u64) -> Result<Vec<u8>, FileFault>
    ensures within { IfOk result (λ copy. vec_len copy ≤ limit) }
    ensures bytes { IfOk result (λ copy. copy.items ≡ bytes.now) }
    ensures too_big { IsErrOf result FileFault.TooBig ↔ (limit < length bytes.now) }
    ensures not_failed { result ≢ Err FileFault.Failed }
{
    if bytes.len() as u64 > limit {
        return Err(FileFault::TooBig);
    }
    Ok(bytes.to_vec(alloc)?)
}

impl Files for MemFiles {
    ghost faults = { λ files. files.plan.faults };

    ghost contents = { λ files. Some (file_named files.files) };

    /// The planned calls fail, and those for a name that there isn't. A call changes nothing
    /// but the counts.
    fn read_file(&mut self, alloc: Global, name: &str, limit: u64) -> Result<Vec<u8>, FileFault>
        ensures within { IfOk result (λ bytes. vec_len bytes ≤ limit) }
        ensures bytes { IfOk result (λ bytes.
            file_named self.old.files name.now ≡ Some bytes.items) }
        ensures too_big { IsErrOf result FileFault.TooBig →
            IsSomeAnd (file_named self.old.files name.now) (λ file. limit < length file) }
        ensures refused { IfSome (file_named self.old.files name.now)
            (λ file. limit < length file → IsErr result) }
        ensures missing { file_named self.old.files name.now ≡ None →
            result ≡ Err FileFault.Failed }
        ensures failed { IsErrOf result FileFault.Failed →
            Rises self.old.plan.faults self.new.plan.faults }
        ensures counted { result ≢ Err FileFault.Failed →
            self.new.plan.faults ≡ self.old.plan.faults }
        ensures never_falls { self.old.plan.faults ≤ self.new.plan.faults }
        ensures unchanged { Some (file_named self.new.files) ≡ Some (file_named self.old.files) }
        ensures planned { IsErrOf result FileFault.Failed ↔
            (NextFails self.old.plan ⊎ (file_named self.old.files name.now ≡ None)) }
        ensures after { result ≢ Err FileFault.Failed →
            self.new ≡ record self.old { plan = after_call self.old.plan } }
        ensures fault { IsErrOf result FileFault.Failed →
            self.new ≡ record self.old { plan = after_failed_call self.old.plan } }
    {
        self.plan.next_call()?;
        let Some(bytes) = find(&self.files, name) else {
            self.plan.add_fault();
            return Err(FileFault::Failed);
        };
        copy(alloc, bytes, limit)
    }
    /// The planned calls fail, and no others. One that fails, or has no memory, changes nothing
    /// but the counts.
    fn write_file(&mut self, alloc: Global, name: &str, bytes: &[u8]) -> Result<(), StoreFault>
        ensures written { OnOk result (Stores name.now bytes.now
            (Some (file_named self.old.files)) (Some (file_named self.new.files))) }
        ensures others { KeepsOthers name.now
            (Some (file_named self.old.files)) (Some (file_named self.new.files)) }
        ensures failed { IsErrOf result StoreFault.Failed →
            Rises self.old.plan.faults self.new.plan.faults }
        ensures counted { result ≢ Err StoreFault.Failed →
            self.new.plan.faults ≡ self.old.plan.faults }
        ensures never_falls { self.old.plan.faults ≤ self.new.plan.faults }
        ensures planned { IsErrOf result StoreFault.Failed ↔ NextFails self.old.plan }
        ensures after { result ≢ Err StoreFault.Failed →
            self.new.plan ≡ after_call self.old.plan }
        ensures fault { IsErrOf result StoreFault.Failed →
            self.new ≡ record self.old { plan = after_failed_call self.old.plan } }
        ensures unstored { OnErr result (self.new.files ≡ self.old.files) }
    {
        self.plan.next_call()?;
        let copy = bytes.to_vec(alloc)?;
        self.add(name, copy)?;
        Ok(())
    }
}
