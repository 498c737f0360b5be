// The disk inode (Bach, chapter 4.1).
ghost use Rattle.std.specs.Prelude.{◌≡◌, ◌<◌, ◌≤◌, ◌+◌, ◌*◌, ◌^◌, ℕ, length, slice_index, IfSome, IfNone};
ghost use Rattle.sv_form.specs.declared.kind.Kind.{Kind};
ghost use Rattle.sv_form.specs.Number.{number24, number32, ChangesOnly, IsTable};
ghost use Rattle.sv_form.specs.Inode.{HasOneSpelling, IsBodyHead, SpellsOneInode, kind_code};

use crate::Kind;
use crate::number::{
    is_zero, number16, number24, number32, write_number16, write_number32, write_zeros,
};
use crate::table::{write_table24, write_table32};

/// What stands at one inode's place on the disk.
#[derive(Clone, Copy, Debug)]
pub enum DiskInode {
    Free,
    Used(InodeBody),
}

/// A used inode. Owner, group and times are kept as they are and have no meaning here.
#[derive(Clone, Copy, Debug)]
pub struct InodeBody {
    pub kind: Kind,
    /// The twelve mode bits.
    pub mode: u16,
    /// How many directory entries name it.
    pub links: u16,
    pub owner: u16,
    pub group: u16,
    /// In bytes.
    pub size: u32,
    /// Ten direct blocks, then the single, the double and the triple indirect block; 0 is a hole.
    pub addresses: [u32; 13],
    pub times: [u32; 3],
}

impl DiskInode {
    ghost use Rattle.sv_form.specs.declared.inode.DiskInode.{DiskInode};
    ghost use Rattle.sv_form.specs.Inode.{HasSpelling, IsInode};

    /// Reads the 64 bytes at an inode's place. A free inode is zero bytes.
    pub fn read(from: &[u8]) -> Option<DiskInode>
        requires { length from.now ≡ 64 }
        ensures some { IfSome result (λ i. IsInode from.now i) }
        ensures spelled { IfSome result (λ i. HasSpelling i) }
        ensures none { IfNone result ((i : DiskInode) → IsInode from.now i → ⊥) }
    {
        if is_zero(from, 0, 64) {
            return Some(DiskInode::Free);
        }
        let body = InodeBody::read(from)?;
        Some(DiskInode::Used(body))
    }

    /// Spells the inode.
    pub fn write(&self, into: &mut [u8])
        requires len { length into.old ≡ 64 }
        requires spelled { HasSpelling self.now }
        ensures { IsInode into.new self.now }
    {
        match self {
            DiskInode::Free => write_zeros(into, 0, 64),
            DiskInode::Used(body) => body.write(into),
        }
    }
}

/// No bytes spell two inodes, and no inode has two spellings.
pub fn inodes_have_one_spelling()
    ensures value { SpellsOneInode }
    ensures bytes { HasOneSpelling }
{}

impl InodeBody {
    ghost use Rattle.sv_form.specs.declared.inode.InodeBody.{InodeBody};
    ghost use Rattle.sv_form.specs.Inode.{IsBody, IsSpelledBody};

    // The 64 bytes of an inode that is not free.
    fn read(from: &[u8]) -> Option<InodeBody>
        requires { length from.now ≡ 64 }
        ensures some { IfSome result (λ b. IsBody from.now b) }
        ensures spelled { IfSome result (λ b. IsSpelledBody b) }
        ensures none { IfNone result ((b : InodeBody) → IsBody from.now b → ⊥) }
    {
        let kind = read_kind(number16(from, 0) / 4096)?;
        if from[51] != 0 {
            return None;
        }
        Some(InodeBody {
            kind,
            mode: number16(from, 0) % 4096,
            links: number16(from, 2),
            owner: number16(from, 4),
            group: number16(from, 6),
            size: number32(from, 8),
            addresses: read_addresses(from),
            times: read_times(from),
        })
    }

    // Spells a used inode.
    fn write(&self, into: &mut [u8])
        requires len { length into.old ≡ 64 }
        requires spelled { IsSpelledBody self.now }
        ensures len { length into.new ≡ 64 }
        ensures body { IsBody into.new self.now }
    {
        write_table24(&self.addresses, into, 12, 13);
        write_zeros(into, 51, 52);
        write_table32(&self.times, into, 52, 3);
        self.write_head(into);
    }

    // The twelve bytes before the addresses.
    fn write_head(&self, into: &mut [u8])
        requires len { length into.old ≡ 64 }
        requires spelled { IsSpelledBody self.now }
        ensures head { IsBodyHead into.new self.now }
        ensures others { ChangesOnly into.old into.new 0 12 }
    {
        write_number16(into, 0, 4096 * code_of(self.kind) + self.mode);
        write_number16(into, 2, self.links);
        write_number16(into, 4, self.owner);
        write_number16(into, 6, self.group);
        write_number32(into, 8, self.size);
    }
}

// What stands for a kind in the upper four bits of an inode's first number.
fn code_of(kind: Kind) -> u16
    ensures code { result ≡ kind_code kind }
    ensures fits { result ≤ 8 }
{
    match kind {
        Kind::File => 8,
        Kind::Dir => 4,
    }
}

// The kind that stands in the upper four bits of an inode's first number.
fn read_kind(code: u16) -> Option<Kind>
    ensures some { IfSome result (λ k. kind_code k ≡ code) }
    ensures none { IfNone result ((k : Kind) → kind_code k ≡ code → ⊥) }
{
    match code {
        8 => Some(Kind::File),
        4 => Some(Kind::Dir),
        _ => None,
    }
}

fn read_addresses(from: &[u8]) -> [u32; 13]
    requires { length from.now ≡ 64 }
    ensures table { IsTable (λ k. number24 from.now (12 + 3 * k)) 13 result }
    ensures fits { (k : ℕ) → slice_index result k < 2 ^ 24 }
{
    let mut addresses = [0; 13];
    for (k, address) in addresses.iter_mut().enumerate() {
        *address = number24(from, 12 + 3 * k);
    }
    addresses
}

fn read_times(from: &[u8]) -> [u32; 3]
    requires { length from.now ≡ 64 }
    ensures { IsTable (λ k. number32 from.now (52 + 4 * k)) 3 result }
{
    [number32(from, 52), number32(from, 56), number32(from, 60)]
}
