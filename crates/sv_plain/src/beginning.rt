// How processes begin.
ghost use Rattle.std.specs.Prelude.{◌≡◌, ◌≤◌, OnOk, OnErr, None};
ghost use Rattle.std.specs.FinMap as map;
ghost use Rattle.sv_plain.specs.Fs.{begun, first_references};
ghost use Rattle.sv_plain.specs.Whole.{IsWhole};

use crate::{Fs, NoMemory};
use std::alloc::Global;

// The root's inode (Bach, chapter 4.3).
const ROOT: u16 = 2;

/// Lets so many processes begin, with a table of so many places for in-core inodes: each process has two references to
/// the root, for its current directory and for itself (Bach, chapter 7.1). The file system is whole, and nothing is
/// referred to, open, promised or pending yet. After want of memory all is as before.
pub fn begin(alloc: Global, fs: &mut Fs, processes: u8, table: u32) -> Result<(), NoMemory>
    requires whole { IsWhole fs.old }
    requires references { fs.old.references ≡ map.empty }
    requires files { fs.old.files ≡ map.empty }
    requires promises { fs.old.promises ≡ map.empty }
    requires pending { fs.old.pending ≡ map.empty }
    requires some { 1 ≤ table }
    ensures begun { OnOk result (fs.new ≡ begun fs.old processes table) }
    ensures refused { OnErr result (fs.new ≡ fs.old) }
    ensures whole { IsWhole fs.new }
{
    let places = fs.places();
    fs.set_places(table);
    for k in 0..processes {
        let Ok(()) = fs.add_first_references(k + 1) else {
            fs.forget_references(alloc);
            fs.set_places(places);
            return Err(NoMemory);
        };
    }
    Ok(())
}

impl Fs {
    // Two references of a process that has none to the root.
    fn add_first_references(&mut self, process: u8) -> Result<(), NoMemory>
        requires within { 2 ≤ self.old.inodes }
        requires none { map.get self.old.references (process, 2) ≡ None }
        ensures added { OnOk result (self.new ≡ record self.old { references = map.insert self.old.references (process, 2) 2 }) }
        ensures refused { OnErr result (self.new ≡ self.old) }
    {
        self.add_reference(process, ROOT)?;
        let Ok(()) = self.add_reference(process, ROOT) else {
            self.remove_reference(process, ROOT);
            return Err(NoMemory);
        };
        Ok(())
    }
}
