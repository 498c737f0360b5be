// The bytes of a directory's entries.
ghost use Rattle.std.specs.Prelude.{◌≡◌, ◌≤◌, length, IfOk};
ghost use Rattle.sv_plain.specs.Change.{entry_bytes};
ghost use Rattle.sv_plain.specs.Entered.{first_page};

use crate::NoMemory;
use std::alloc::Global;
use sv_form::{Bytes, ENTRY_SIZE};

// The bytes of an entry that names inode i: its number, and its name filled with zeros.
pub fn entry_bytes(i: u16, name: &[u8]) -> [u8; ENTRY_SIZE]
    requires { length name.now ≤ 14 }
    ensures { result ≡ entry_bytes i name.now }
{
    let mut bytes = [0; ENTRY_SIZE];
    let (number, field) = bytes.split_at_mut(2);
    number.copy_from_slice(&i.to_le_bytes());
    field[..name.len()].copy_from_slice(name);
    bytes
}

// The first page of directory i, made in directory d.
pub fn first_page(alloc: Global, block: u32, i: u16, d: u16) -> Result<Bytes, NoMemory>
    requires { 32 ≤ block }
    ensures { IfOk result (λ page. page ≡ first_page block i d) }
{
    let mut page = Vec::new(alloc);
    page.extend_from_slice(&entry_bytes(i, b"."))?;
    page.extend_from_slice(&entry_bytes(d, b".."))?;
    page.resize(block as usize, 0)?;
    Ok(Bytes::from_vec(page))
}
