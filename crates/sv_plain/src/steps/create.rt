// Files and directories: what makes them.
ghost use Rattle.std.specs.Prelude.{◌≡◌, ◌≢◌, ◌≤◌, ◌&&◌, nat_le, true, None, IsSome, length, OnOk, OnErr, IfErr};
ghost use Rattle.std.specs.FinMap as map;
ghost use Rattle.sv_form.specs.declared.kind.Kind.TheVariants.{Dir};
ghost use Rattle.sv_plain.specs.declared.history.op.Op.TheVariants as op;
ghost use Rattle.sv_plain.specs.Fs.{changed, with_node, is_full_for};
ghost use Rattle.sv_plain.specs.Names.{child_passes, has_reference, links_of, promise_of};
ghost use Rattle.sv_plain.specs.Change.{with_entry, with_links, new_node, one_more};
ghost use Rattle.sv_plain.specs.Entered.{with_sized_page};
ghost use Rattle.sv_plain.specs.Step.{create_need, create_replies, has_many_links, takes_one_more, has_inode, is_free, links_made};
ghost use Rattle.sv_plain.specs.Taken.{IsTaken, IsRefused};
ghost use Rattle.sv_plain.specs.Whole.{IsWhole};

use crate::node::directory_bytes::first_page;
use crate::steps::entering::EntryPage;
use crate::steps::links::MOST_LINKS;
use crate::{Fs, Illegal, NoMemory, Reply};
use std::alloc::Global;
use sv_form::{Kind, Name};

// The most mode bits.
const MOST_MODE: u16 = 0o7777;

// The links of a directory once a file or a directory was made in it: a directory has a link of each directory in it.
fn links_made(kind: Kind, links: u16) -> u16
    requires { links ≤ 1000 }
    ensures { result ≡ links_made kind links }
{
    match kind {
        Kind::File => links,
        Kind::Dir => links + 1,
    }
}

impl Fs {
    // How many blocks a file or a directory of that name takes.
    fn create_need(&self, d: u16, name: &Name, kind: Kind) -> u32
        ensures { result ≡ create_need self.now d name.now kind }
    {
        match kind {
            Kind::File => self.enter_need(d, name),
            Kind::Dir => self.make_need(d, name),
        }
    }

    // Something with this mode that takes so many blocks may be made in d.
    fn allows_create(&self, process: u8, d: u16, mode: u16, need: u32) -> bool
        ensures { result ≡ (has_reference self.now process d && (nat_le mode 4095 && nat_le need (promise_of self.now process))) }
    {
        self.has_reference(process, d) && mode <= MOST_MODE && need <= self.promise_of(process)
    }

    // Directory d can have no directory more.
    fn has_many_links(&self, d: u16, kind: Kind) -> bool
        ensures { result ≡ has_many_links self.now d kind }
    {
        match kind {
            Kind::File => false,
            Kind::Dir => self.links_of(d) == MOST_LINKS,
        }
    }

    // The name is missing, and a file or a directory may have it.
    fn takes_one_more(&self, d: u16, name: &Name, kind: Kind) -> bool
        ensures { result ≡ takes_one_more self.now d name.now kind }
    {
        self.is_missing(d, name) && !self.has_many_links(d, kind)
    }

    // Some number is free for it besides.
    fn has_inode(&self, d: u16, name: &Name, kind: Kind) -> bool
        requires { IsWhole self.now }
        ensures { result ≡ has_inode self.now d name.now kind }
    {
        self.takes_one_more(d, name, kind) && self.numbers().1 != 0
    }

    // What the name leads to has no place in the table.
    fn is_full_for_child(&self, d: u16, name: &Name) -> bool
        ensures { result ≡ child_passes self.now d name.now (is_full_for self.now) }
    {
        match self.open_child(d, name) {
            Some(child) => self.is_full_for(child),
            None => false,
        }
    }

    fn answers_create(&self, d: u16, name: &Name, kind: Kind, reply: &Reply) -> bool
        requires { IsWhole self.now }
        ensures { result ≡ create_replies self.now d name.now kind reply.now }
    {
        match reply {
            Reply::NotDir => !self.is_directory(d),
            Reply::Gone => self.is_directory(d) && self.links_of(d) == 0,
            Reply::Found(i) => match self.open_child(d, name) {
                Some(child) => child == *i && !self.is_full_for(child),
                None => false,
            },
            Reply::ManyLinks => self.is_missing(d, name) && self.has_many_links(d, kind),
            Reply::NoInode => self.takes_one_more(d, name, kind) && self.numbers().1 == 0,
            Reply::Full => {
                self.is_full_for_child(d, name)
                    || (self.has_inode(d, name, kind) && self.is_table_full())
            }
            Reply::Made(i) => {
                self.has_inode(d, name, kind) && !self.is_table_full() && self.is_free(*i)
            }
            Reply::Fault => true,
            _ => false,
        }
    }

    // Adds directory i, made in directory d, with its first page.
    pub(crate) fn add_directory(
        &mut self,
        alloc: Global,
        i: u16,
        d: u16,
        mode: u16,
    ) -> Result<(), NoMemory>
        requires least { 2 ≤ i }
        requires most { i ≤ self.old.inodes }
        requires absent { map.get self.old.nodes i ≡ None }
        requires two { 32 ≤ self.old.block }
        ensures added { OnOk result (self.new ≡ with_node self.old i (new_node self.old.block i d mode Dir)) }
        ensures refused { OnErr result (self.new ≡ self.old) }
    {
        let bytes = first_page(alloc, self.block_size(), i, d)?;
        self.add_node(alloc, i, Kind::Dir, mode, 2, 32)?;
        let Ok(()) = self.put_page(alloc, i, 0, bytes) else {
            self.remove_node(i);
            return Err(NoMemory);
        };
        Ok(())
    }

    // Adds inode i, a new file or a directory made in directory d.
    fn add_made(
        &mut self,
        alloc: Global,
        i: u16,
        d: u16,
        kind: Kind,
        mode: u16,
    ) -> Result<(), NoMemory>
        requires least { 2 ≤ i }
        requires most { i ≤ self.old.inodes }
        requires absent { map.get self.old.nodes i ≡ None }
        requires two { 32 ≤ self.old.block }
        ensures added { OnOk result (self.new ≡ with_node self.old i (new_node self.old.block i d mode kind)) }
        ensures refused { OnErr result (self.new ≡ self.old) }
    {
        match kind {
            Kind::File => self.add_node(alloc, i, Kind::File, mode, 1, 0),
            Kind::Dir => self.add_directory(alloc, i, d, mode),
        }
    }

    // The process has its first reference to inode i, and directory d the page, or neither.
    fn refer_and_put(
        &mut self,
        alloc: Global,
        process: u8,
        i: u16,
        d: u16,
        page: EntryPage,
    ) -> Result<(), NoMemory>
        requires within { i ≤ self.old.inodes }
        requires first { map.get self.old.references (process, i) ≡ None }
        requires there { IsSome (map.get self.old.nodes d) }
        requires whole { length page.bytes ≡ self.old.block }
        ensures put { OnOk result (self.new ≡ record self.old {
          nodes = changed self.old.nodes d
              (with_sized_page page.number page.bytes page.size);
          references = one_more self.old process i;
        }) }
        ensures refused { OnErr result (self.new ≡ self.old) }
    {
        self.add_reference(process, i)?;
        let Ok(()) = self.put_entry(alloc, d, page) else {
            self.remove_reference(process, i);
            return Err(NoMemory);
        };
        Ok(())
    }

    // Makes inode i and enters it in directory d under this name, or does nothing. The process has a reference to it.
    fn make(
        &mut self,
        alloc: Global,
        process: u8,
        d: u16,
        name: &Name,
        kind: Kind,
        mode: u16,
        i: u16,
    ) -> Result<(), NoMemory>
        requires whole { IsWhole self.old }
        requires there { IsSome (map.get self.old.nodes d) }
        requires linked { links_of self.old d ≢ 0 }
        requires free { is_free self.old i ≡ true }
        ensures made { OnOk result
            (self.new ≡ record self.old {
              nodes = map.insert
                  (changed self.old.nodes d (λ node. with_links (links_made kind) (with_entry self.old.block i name.now node))) i
                  (new_node self.old.block i d mode kind);
              references = one_more self.old process i;
            }) }
        ensures refused { OnErr result (self.new ≡ self.old) }
    {
        let page = self.entry_page(alloc, d, name, i)?;
        let links = links_made(kind, self.links_of(d));
        self.add_made(alloc, i, d, kind, mode)?;
        let Ok(()) = self.refer_and_put(alloc, process, i, d, page) else {
            self.remove_node(i);
            return Err(NoMemory);
        };
        let Ok(()) = self.set_links(alloc, d, links) else {
            unreachable!();
        };
        Ok(())
    }

    // Create: the name is found, or a file or a directory is made under it, which the promise pays for.
    pub(crate) fn step_create(
        &mut self,
        alloc: Global,
        process: u8,
        d: u16,
        name: &Name,
        kind: Kind,
        mode: u16,
        reply: &Reply,
    ) -> Result<(), Illegal>
        requires { IsWhole self.old }
        ensures taken { OnOk result (IsTaken self.old process (op.Create d name.now kind mode) reply.now self.new) }
        ensures refused { IfErr result (IsRefused self.old process (op.Create d name.now kind mode) reply.now) }
        ensures kept { OnErr result (self.new ≡ self.old) }
    {
        let need = self.create_need(d, name, kind);
        if !self.allows_create(process, d, mode, need) {
            return Err(Illegal::Condition);
        }
        if !self.answers_create(d, name, kind, reply) {
            return Err(Illegal::Reply);
        }
        match reply {
            Reply::Found(i) => {
                let Ok(()) = self.add_reference(process, *i) else {
                    return Err(Illegal::NoMemory);
                };
                Ok(())
            }
            Reply::Made(i) => {
                let Ok(()) = self.make(alloc, process, d, name, kind, mode, *i) else {
                    return Err(Illegal::NoMemory);
                };
                self.spend(process, need);
                Ok(())
            }
            _ => Ok(()),
        }
    }
}
