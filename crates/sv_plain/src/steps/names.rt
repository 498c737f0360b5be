// Names in directories: what steps find there.
ghost use Rattle.std.specs.Prelude.{◌≡◌, ◌&&◌, not, true, None, IsSome, OnOk, OnErr, IfOk, IfErr, if◌then◌else◌};
ghost use Rattle.sv_plain.specs.Fs.{changed, page_of, with_page, is_full_for};
ghost use Rattle.std.specs.FinMap as map;
ghost use Rattle.sv_plain.specs.Change.{with_links, with_reference, without_entry};
ghost use Rattle.sv_plain.specs.declared.history.op.Op.TheVariants as op;
ghost use Rattle.sv_plain.specs.Names.{is_open_to_names, is_directory, child, is_missing};
ghost use Rattle.sv_plain.specs.Step.{look_replies, is_dots, is_in_use, unlink_allowed, unlink_replies, rmdir_replies};
ghost use Rattle.sv_plain.specs.Taken.{IsTaken, IsRefused};
ghost use Rattle.sv_plain.specs.Whole.{IsWhole};

use crate::{Fs, Illegal, NoMemory, Reply};
use std::alloc::Global;
use sv_form::{Bytes, Name};

impl Fs {
    // Names can be looked up in d, and this one leads nowhere.
    pub(crate) fn is_missing(&self, d: u16, name: &Name) -> bool
        ensures { result ≡ is_missing self.now d name.now }
    {
        self.is_open_to_names(d) && self.child(d, name).is_none()
    }

    // What the name leads to, where names can be looked up in d.
    pub(crate) fn open_child(&self, d: u16, name: &Name) -> Option<u16>
        ensures { result ≡ (if is_open_to_names self.now d then child self.now d name.now else None) }
    {
        if !self.is_open_to_names(d) {
            return None;
        }
        self.child(d, name)
    }

    fn answers_look(&self, d: u16, name: &Name, reply: &Reply) -> bool
        ensures { result ≡ look_replies self.now d name.now reply.now }
    {
        match reply {
            Reply::NotDir => !self.is_directory(d),
            Reply::Gone => self.is_directory(d) && self.links_of(d) == 0,
            Reply::NotFound => self.is_missing(d, name),
            Reply::Full => match self.open_child(d, name) {
                Some(child) => self.is_full_for(child),
                None => false,
            },
            Reply::Found(i) => match self.open_child(d, name) {
                Some(child) => child == *i && !self.is_full_for(child),
                None => false,
            },
            Reply::Fault => true,
            _ => false,
        }
    }

    // Look: the name is looked up, and what it leads to is referred to once more.
    pub(crate) fn step_look(
        &mut self,
        process: u8,
        d: u16,
        name: &Name,
        reply: &Reply,
    ) -> Result<(), Illegal>
        requires { IsWhole self.old }
        ensures taken { OnOk result (IsTaken self.old process (op.Look d name.now) reply.now self.new) }
        ensures refused { IfErr result (IsRefused self.old process (op.Look d name.now) reply.now) }
        ensures kept { OnErr result (self.new ≡ self.old) }
    {
        if !self.has_reference(process, d) {
            return Err(Illegal::Condition);
        }
        if !self.answers_look(d, name, reply) {
            return Err(Illegal::Reply);
        }
        match reply {
            Reply::Found(i) => {
                let Ok(()) = self.add_reference(process, *i) else {
                    return Err(Illegal::NoMemory);
                };
                Ok(())
            }
            _ => Ok(()),
        }
    }

    // The page of directory d in which the entry with this name is cleared, and its number.
    fn cleared_page(&self, alloc: Global, d: u16, name: &Name) -> Result<(u32, Bytes), NoMemory>
        requires whole { IsWhole self.now }
        requires opened { is_open_to_names self.now d ≡ true }
        requires there { IsSome (child self.now d name.now) }
        ensures there { IfOk result (λ p. IsSome (page_of self.now d p.0)) }
        ensures cleared { IfOk result (λ p. changed self.now.nodes d (with_page p.0 p.1)
            ≡ changed self.now.nodes d (without_entry self.now.block name.now)) }
    {
        let block = self.block_size();
        let Some(node) = self.node(d) else {
            unreachable!();
        };
        let Some(j) = node.place_of(block, name.as_slice()) else {
            unreachable!();
        };
        node.page_with_entry(alloc, block, j, &[0; 16])
    }

    // The name is not one of the two that each directory has for itself and for the one above.
    fn allows_unlink(&self, process: u8, d: u16, name: &Name) -> bool
        ensures { result ≡ unlink_allowed self.now process d name.now }
    {
        self.has_reference(process, d) && !is_dots(name)
    }

    fn answers_unlink(&self, d: u16, name: &Name, reply: &Reply) -> bool
        ensures { result ≡ unlink_replies self.now d name.now reply.now }
    {
        match reply {
            Reply::NotDir => !self.is_directory(d),
            Reply::Gone => self.is_directory(d) && self.links_of(d) == 0,
            Reply::NotFound => self.is_missing(d, name),
            Reply::Full => match self.open_child(d, name) {
                Some(child) => self.is_full_for(child),
                None => false,
            },
            Reply::IsDir => match self.open_child(d, name) {
                Some(child) => !self.is_full_for(child) && self.is_directory(child),
                None => false,
            },
            Reply::Removed(i) => match self.open_child(d, name) {
                Some(child) => {
                    child == *i && !self.is_full_for(child) && !self.is_directory(child)
                }
                None => false,
            },
            Reply::Fault => true,
            _ => false,
        }
    }

    // Takes a reference to inode i and gives it other links, or does neither.
    fn refer_with_links(
        &mut self,
        alloc: Global,
        process: u8,
        i: u16,
        links: u16,
    ) -> Result<(), NoMemory>
        requires whole { IsWhole self.old }
        requires there { IsSome (map.get self.old.nodes i) }
        ensures put { OnOk result (self.new ≡ record (with_reference self.old process i) {
          nodes = changed self.old.nodes i
              (with_links (λ _. links));
        }) }
        ensures refused { OnErr result (self.new ≡ self.old) }
    {
        self.add_reference(process, i)?;
        let Ok(()) = self.set_links(alloc, i, links) else {
            self.remove_reference(process, i);
            return Err(NoMemory);
        };
        Ok(())
    }

    // Unlink: the entry is cleared, its inode has a link less, and is referred to once more.
    pub(crate) fn step_unlink(
        &mut self,
        alloc: Global,
        process: u8,
        d: u16,
        name: &Name,
        reply: &Reply,
    ) -> Result<(), Illegal>
        requires { IsWhole self.old }
        ensures taken { OnOk result (IsTaken self.old process (op.Unlink d name.now) reply.now self.new) }
        ensures refused { IfErr result (IsRefused self.old process (op.Unlink d name.now) reply.now) }
        ensures kept { OnErr result (self.new ≡ self.old) }
    {
        if !self.allows_unlink(process, d, name) {
            return Err(Illegal::Condition);
        }
        if !self.answers_unlink(d, name, reply) {
            return Err(Illegal::Reply);
        }
        match reply {
            Reply::Removed(i) => {
                let Ok((page, bytes)) = self.cleared_page(alloc, d, name) else {
                    return Err(Illegal::NoMemory);
                };
                let links = self.links_of(*i);
                let Ok(()) = self.refer_with_links(alloc, process, *i, links.saturating_sub(1))
                else {
                    return Err(Illegal::NoMemory);
                };
                self.replace_page(alloc, d, page, bytes);
                Ok(())
            }
            _ => Ok(()),
        }
    }

    fn answers_rmdir(&self, d: u16, name: &Name, reply: &Reply) -> bool
        ensures { result ≡ rmdir_replies self.now d name.now reply.now }
    {
        match reply {
            Reply::NotDir => !self.is_directory(d),
            Reply::Gone => self.is_directory(d) && self.links_of(d) == 0,
            Reply::NotFound => self.is_missing(d, name),
            Reply::Full => match self.open_child(d, name) {
                Some(child) => self.is_full_for(child),
                None => false,
            },
            Reply::Plain => match self.open_child(d, name) {
                Some(child) => !self.is_full_for(child) && !self.is_directory(child),
                None => false,
            },
            Reply::NotEmpty => match self.open_child(d, name) {
                Some(child) => !self.is_full_for(child)
                    && self.is_directory(child)
                    && self.is_in_use(child),
                None => false,
            },
            Reply::Removed(i) => match self.open_child(d, name) {
                Some(child) => child == *i && self.is_removable(child),
                None => false,
            },
            Reply::Fault => true,
            _ => false,
        }
    }

    // The table has a place for the directory, and it has no entry besides the first two.
    fn is_removable(&self, i: u16) -> bool
        ensures { result ≡ (not (is_full_for self.now i) && (is_directory self.now i && not (is_in_use self.now i))) }
    {
        !self.is_full_for(i) && self.is_directory(i) && !self.is_in_use(i)
    }

    // Rmdir: the entry is cleared, the directory has no link any more and the one above it one less, and it is referred to
    // once more.
    pub(crate) fn step_rmdir(
        &mut self,
        alloc: Global,
        process: u8,
        d: u16,
        name: &Name,
        reply: &Reply,
    ) -> Result<(), Illegal>
        requires { IsWhole self.old }
        ensures taken { OnOk result (IsTaken self.old process (op.Rmdir d name.now) reply.now self.new) }
        ensures refused { IfErr result (IsRefused self.old process (op.Rmdir d name.now) reply.now) }
        ensures kept { OnErr result (self.new ≡ self.old) }
    {
        if !self.allows_unlink(process, d, name) {
            return Err(Illegal::Condition);
        }
        if !self.answers_rmdir(d, name, reply) {
            return Err(Illegal::Reply);
        }
        match reply {
            Reply::Removed(i) => {
                let Ok((page, bytes)) = self.cleared_page(alloc, d, name) else {
                    return Err(Illegal::NoMemory);
                };
                let links = self.links_of(d);
                let Ok(()) = self.refer_with_links(alloc, process, *i, 0) else {
                    return Err(Illegal::NoMemory);
                };
                self.replace_page(alloc, d, page, bytes);
                let Ok(()) = self.set_links(alloc, d, links - 1) else {
                    unreachable!();
                };
                Ok(())
            }
            _ => Ok(()),
        }
    }
}

// The name is `.` or `..`.
fn is_dots(name: &Name) -> bool
    ensures { result ≡ is_dots name.now }
{
    let bytes = name.as_slice();
    bytes == b".".as_slice() || bytes == b"..".as_slice()
}
