// What steps change in references, files, promises and pending links. Each change keeps the counts beside the maps.
ghost use Rattle.std.specs.Prelude.{◌≡◌, ◌≤◌, IsSome, IsOk, OnOk, OnErr, Some, None, option_map, true};
ghost use Rattle.std.specs.FinMap as map;
ghost use Rattle.sv_plain.specs.Names.{promise_of, has_reference};
ghost use Rattle.sv_plain.specs.Change.{with_reference, without_reference, spent};
ghost use Rattle.sv_plain.specs.declared.fs.opening.Opening as opening;

use crate::{Fs, HolderCounts, NoMemory, Opening, PairMap};
use std::alloc::Global;

impl Fs {
    // One reference more. A count at its type's end is refused like want of memory.
    pub(crate) fn add_reference(&mut self, process: u8, i: u16) -> Result<(), NoMemory>
        requires { i ≤ self.old.inodes }
        ensures added { OnOk result (self.new ≡ with_reference self.old process i) }
        ensures refused { OnErr result (self.new ≡ self.old) }
    {
        let (first, second) = (u32::from(process), u32::from(i));
        if let Some(count) = self.references.get(first, second).copied() {
            let Some(more) = count.checked_add(1) else {
                return Err(NoMemory);
            };
            self.references.insert(first, second, more)?;
            return Ok(());
        }
        self.references.insert(first, second, 1)?;
        let Ok(()) = self.holders.add(i) else {
            self.references.remove(first, second);
            return Err(NoMemory);
        };
        Ok(())
    }

    // One reference less, of at least one.
    pub(crate) fn remove_reference(&mut self, process: u8, i: u16)
        requires within { i ≤ self.old.inodes }
        requires there { has_reference self.old process i ≡ true }
        ensures { self.new ≡ without_reference self.old process i }
    {
        let (first, second) = (u32::from(process), u32::from(i));
        let Some(count) = self.references.get(first, second).copied() else {
            return;
        };
        if count <= 1 {
            self.references.remove(first, second);
            self.holders.remove(i);
            return;
        }
        let Ok(()) = self.references.insert(first, second, count - 1) else {
            unreachable!();
        };
    }

    // A file more.
    pub(crate) fn add_file(&mut self, n: u16, file: Opening) -> Result<(), NoMemory>
        requires within { file.inode ≤ self.old.inodes }
        requires absent { map.get self.old.files n ≡ None }
        ensures added { OnOk result (self.new ≡ record self.old { files = map.insert self.old.files n file }) }
        ensures refused { OnErr result (self.new ≡ self.old) }
    {
        let key = u32::from(n);
        self.files.insert(key, file)?;
        let Ok(()) = self.holders.add(file.inode) else {
            self.files.remove(key);
            return Err(NoMemory);
        };
        Ok(())
    }

    // A file in place of another of the same inode.
    pub(crate) fn replace_file(&mut self, n: u16, file: Opening)
        requires { option_map (λ f. f.inode) (map.get self.old.files n) ≡ Some file.inode }
        ensures { self.new ≡ record self.old { files = map.insert self.old.files n file } }
    {
        let Ok(()) = self.files.insert(u32::from(n), file) else {
            unreachable!();
        };
    }

    // A file less, which has this inode.
    pub(crate) fn remove_file(&mut self, n: u16, inode: u16)
        requires within { inode ≤ self.old.inodes }
        requires there { option_map (λ f. f.inode) (map.get self.old.files n) ≡ Some inode }
        ensures { self.new ≡ record self.old { files = map.remove self.old.files n } }
    {
        self.files.remove(u32::from(n));
        self.holders.remove(inode);
    }

    // A promise of so many blocks in place of what the process had. A sum at its type's end is refused like want of memory.
    pub(crate) fn promise(&mut self, process: u8, blocks: u32) -> Result<(), NoMemory>
        ensures put { OnOk result (self.new ≡ record self.old { promises = map.insert self.old.promises process blocks }) }
        ensures refused { OnErr result (self.new ≡ self.old) }
    {
        let others = self.promised - u64::from(self.promise_of(process));
        if others > u64::MAX - u64::from(blocks) {
            return Err(NoMemory);
        }
        self.promises.insert(u32::from(process), blocks)?;
        self.promised = others + u64::from(blocks);
        Ok(())
    }

    // Takes so many blocks off the promise of a process that has one.
    pub(crate) fn spend(&mut self, process: u8, blocks: u32)
        ensures { self.new ≡ record self.old { promises = spent self.old process blocks } }
    {
        let key = u32::from(process);
        let Some(had) = self.promises.get(key).copied() else {
            return;
        };
        let left = had.saturating_sub(blocks);
        self.promised -= u64::from(had - left);
        let Ok(()) = self.promises.insert(key, left) else {
            unreachable!();
        };
    }

    // The process has no promise any more.
    pub(crate) fn forgo(&mut self, process: u8)
        ensures { self.new ≡ record self.old { promises = map.remove self.old.promises process } }
    {
        self.promised -= u64::from(self.promise_of(process));
        self.promises.remove(u32::from(process));
    }

    // A pending link of the process on inode i.
    pub(crate) fn set_pending(&mut self, process: u8, i: u16) -> Result<(), NoMemory>
        ensures put { OnOk result (self.new ≡ record self.old { pending = map.insert self.old.pending process i }) }
        ensures refused { OnErr result (self.new ≡ self.old) }
    {
        self.pending.insert(u32::from(process), i)
    }

    pub(crate) fn clear_pending(&mut self, process: u8)
        ensures { self.new ≡ record self.old { pending = map.remove self.old.pending process } }
    {
        self.pending.remove(u32::from(process));
    }

    // A table of so many places for in-core inodes.
    pub(crate) fn set_places(&mut self, places: u32)
        ensures { self.new ≡ record self.old { places = places } }
    {
        self.places = places;
    }

    // Nothing is referred to any more, where no file is open.
    pub(crate) fn forget_references(&mut self, alloc: Global)
        requires { self.old.files ≡ map.empty }
        ensures { self.new ≡ record self.old { references = map.empty } }
    {
        self.references = PairMap::new(alloc);
        self.holders = HolderCounts::new(alloc);
    }
}
