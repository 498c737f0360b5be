// Names in directories: what enters them there.
ghost use Rattle.std.specs.Prelude.{◌≡◌, ◌<◌, ◌≤◌, ◌&&◌, nat_le, unwrap_or, option_map, IsSome, length, OnOk, OnErr, IfOk, IfErr};
ghost use Rattle.std.specs.FinMap as map;
ghost use Rattle.sv_form.specs.Node.{entry_count};
ghost use Rattle.sv_plain.specs.declared.history.op.Op.TheVariants as op;
ghost use Rattle.sv_plain.specs.Fs.{changed};
ghost use Rattle.sv_plain.specs.Names.{empty_place, has_reference, is_pending, promise_of};
ghost use Rattle.sv_plain.specs.Change.{with_entry};
ghost use Rattle.sv_plain.specs.Entered.{with_sized_page};
ghost use Rattle.sv_plain.specs.Step.{enter_replies};
ghost use Rattle.sv_plain.specs.Taken.{IsTaken, IsRefused};
ghost use Rattle.sv_plain.specs.Whole.{IsWhole};

use crate::node::directory_bytes::entry_bytes;
use crate::{Fs, Illegal, NoMemory, Node, Reply};
use std::alloc::Global;
use sv_form::{Bytes, Name};

// A page of a directory as an entry leaves it, its number, and the directory's size in bytes then.
#[derive(Drop)]
pub(crate) struct EntryPage {
    pub(crate) number: u32,
    pub(crate) bytes: Bytes,
    pub(crate) size: u32,
}

// Where an entry goes: to the first empty one, or else to the end.
fn free_place(node: &Node, block: u32) -> u32
    requires { 0 < block }
    ensures place { result ≡ unwrap_or (empty_place block node.now) (entry_count node.now) }
    ensures within { result ≤ entry_count node.now }
{
    match node.empty_place(block) {
        Some(j) => j,
        None => node.entry_count(),
    }
}

impl Fs {
    // The page of directory d in which inode i is entered under this name.
    pub(crate) fn entry_page(
        &self,
        alloc: Global,
        d: u16,
        name: &Name,
        i: u16,
    ) -> Result<EntryPage, NoMemory>
        requires whole { IsWhole self.now }
        requires there { IsSome (map.get self.now.nodes d) }
        ensures whole { IfOk result (λ page. length page.bytes ≡ self.now.block) }
        ensures entered { IfOk result (λ page. option_map (with_sized_page page.number page.bytes page.size) (map.get self.now.nodes d)
            ≡ option_map (with_entry self.now.block i name.now) (map.get self.now.nodes d)) }
    {
        let block = self.block_size();
        let Some(node) = self.node(d) else {
            unreachable!();
        };
        let j = free_place(node, block);
        let entry = entry_bytes(i, name.as_slice());
        let (number, bytes) = node.page_with_entry(alloc, block, j, &entry)?;
        let size = node.size.max(16 * j + 16);
        Ok(EntryPage {
            number,
            bytes,
            size,
        })
    }

    // Puts the page into directory d, which has that size then.
    pub(crate) fn put_entry(
        &mut self,
        alloc: Global,
        d: u16,
        page: EntryPage,
    ) -> Result<(), NoMemory>
        requires there { IsSome (map.get self.old.nodes d) }
        requires whole { length page.bytes ≡ self.old.block }
        ensures put { OnOk result (self.new ≡ record self.old {
          nodes = changed self.old.nodes d
              (with_sized_page page.number page.bytes page.size);
        }) }
        ensures refused { OnErr result (self.new ≡ self.old) }
    {
        let EntryPage {
            number,
            bytes,
            size,
        } = page;
        self.set_page(alloc, d, number, bytes)?;
        self.set_size(alloc, d, size);
        Ok(())
    }

    // The pending inode i may be entered in d, where that takes so many blocks.
    fn allows_enter(&self, process: u8, d: u16, i: u16, need: u32) -> bool
        ensures { result ≡ (has_reference self.now process d && (is_pending self.now process i
            && nat_le need (promise_of self.now process))) }
    {
        self.has_reference(process, d)
            && self.is_pending(process, i)
            && need <= self.promise_of(process)
    }

    fn answers_enter(&self, d: u16, name: &Name, reply: &Reply) -> bool
        ensures { result ≡ enter_replies self.now d name.now reply.now }
    {
        match reply {
            Reply::NotDir => !self.is_directory(d),
            Reply::Gone => self.is_directory(d) && self.links_of(d) == 0,
            Reply::Exists => self.open_child(d, name).is_some(),
            Reply::Entered => self.is_missing(d, name),
            Reply::Fault => true,
            _ => false,
        }
    }

    // Enter: the inode that the process has pending is entered under a further name, which the promise pays for.
    pub(crate) fn step_enter(
        &mut self,
        alloc: Global,
        process: u8,
        d: u16,
        name: &Name,
        i: u16,
        reply: &Reply,
    ) -> Result<(), Illegal>
        requires { IsWhole self.old }
        ensures taken { OnOk result (IsTaken self.old process (op.Enter d name.now i) reply.now self.new) }
        ensures refused { IfErr result (IsRefused self.old process (op.Enter d name.now i) reply.now) }
        ensures kept { OnErr result (self.new ≡ self.old) }
    {
        let need = self.enter_need(d, name);
        if !self.allows_enter(process, d, i, need) {
            return Err(Illegal::Condition);
        }
        if !self.answers_enter(d, name, reply) {
            return Err(Illegal::Reply);
        }
        match reply {
            Reply::Entered => {
                let Ok(page) = self.entry_page(alloc, d, name, i) else {
                    return Err(Illegal::NoMemory);
                };
                let Ok(()) = self.put_entry(alloc, d, page) else {
                    return Err(Illegal::NoMemory);
                };
                self.spend(process, need);
                self.clear_pending(process);
                Ok(())
            }
            _ => Ok(()),
        }
    }
}
