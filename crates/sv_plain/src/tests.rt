ghost use Rattle.std.specs.Prelude.{◌≡◌, ◌≤◌, None, IfOk};
ghost use Rattle.std.specs.FinMap as map;
ghost use Rattle.sv_plain.specs.Fs.{empty_fs};

mod history;
mod legal;
mod refused;
mod writes;

use crate::node::blocks::put_page_blocks;
use crate::node::directory_bytes::first_page;
use crate::node::page_need::page_need;
use crate::{Fs, NoMemory, PairSet};
use std::alloc::Global;
use sv_form::{Bytes, Geometry, Kind};

// A file system of 64 blocks and 32 inodes that has nothing else.
fn empty_fs(alloc: Global) -> Result<Box<Fs>, NoMemory>
    ensures { IfOk result (λ fs. fs.value ≡ empty_fs (record { block_size = 1024; blocks = 64; first_data = 4 })) }
{
    let geometry = Geometry {
        block_size: 1024,
        blocks: 64,
        first_data: 4,
    };
    let fs = Fs::new(alloc, geometry)?;
    let fs = Box::new(alloc, fs)?;
    Ok(fs)
}

// The first byte of a page, where inode n has that page.
fn first_byte(fs: &Fs, n: u16, page: u32) -> Option<u8> {
    let bytes = fs.node(n)?.page(page)?;
    bytes.first().copied()
}

// Whether inode 2 is there, the mode, the links and the size of inode 3, and first bytes: of pages 10 and 9 of inode 3,
// and of page 10 of inode 2.
type Parts = (bool, Option<(u16, u16, u32)>, [Option<u8>; 3]);

fn parts(fs: &Fs) -> Parts {
    let numbers = match fs.node(3) {
        Some(node) => Some((node.mode, node.links, node.size)),
        None => None,
    };
    let firsts = [
        first_byte(fs, 3, 10),
        first_byte(fs, 3, 9),
        first_byte(fs, 2, 10),
    ];
    (fs.node(2).is_some(), numbers, firsts)
}

// Adds inode 3, a regular file whose one page, of sevens, is page 10.
fn add_one_file(fs: &mut Fs, alloc: Global) -> Result<Parts, NoMemory>
    requires inodes { 3 ≤ fs.old.inodes }
    requires node { map.get fs.old.nodes 3 ≡ None }
    requires block { fs.old.block ≡ 1024 }
{
    fs.add_node(alloc, 3, Kind::File, 0o644, 1, 11_264)?;
    let bytes = Bytes::from_vec(vec![in alloc; 7; 1024]?);
    fs.put_page(alloc, 3, 10, bytes)?;
    Ok(parts(fs))
}

// The same in the empty file system.
fn one_file(alloc: Global) -> Result<Parts, NoMemory> {
    let mut fs = empty_fs(alloc)?;
    add_one_file(&mut *fs, alloc)
}

#[test]
fn nodes_and_pages(rt: HostRuntime) {
    let want = (false, Some((0o644, 1, 11_264)), [Some(7), None, None]);
    assert!(rt; one_file(rt.alloc()) == Ok(want));
}

// How many blocks the second page adds to those of the first, with 256 numbers in an indirect block.
fn added(alloc: Global, first: u32, second: u32) -> Result<u32, NoMemory> {
    let mut blocks = PairSet::new(alloc);
    put_page_blocks(&mut blocks, 256, first)?;
    Ok(page_need(&blocks, 256, second))
}

// Ten pages have no indirect block above them, the next 256 one, the next 65,536 two, and the others three.
#[test]
fn blocks_that_a_page_adds(rt: HostRuntime) {
    for (first, second, want) in [
        (0, 0, 0),
        (0, 9, 1),
        (9, 10, 2),
        (10, 265, 1),
        (10, 266, 3),
        (266, 521, 1),
        (266, 522, 2),
        (0, 65_801, 3),
        (0, 65_802, 4),
    ] {
        assert!(rt; added(rt.alloc(), first, second) == Ok(want));
    }
}

// How many bytes the first page of directory 3 has, made in directory 258, and whether it begins with these.
fn page_begins(alloc: Global, front: &[u8]) -> Result<(usize, bool), NoMemory> {
    let page = first_page(alloc, 1024, 3, 258)?;
    let bytes = page.as_slice();
    Ok((bytes.len(), bytes.starts_with(front)))
}

#[test]
fn first_page_of_a_directory(rt: HostRuntime) {
    let front = [
        3, 0, b'.', 0, 0, 0, 0, 0, 0, 0, 0, 0, 0, 0, 0, 0, 2, 1, b'.', b'.', 0, 0, 0, 0, 0, 0, 0,
        0, 0, 0, 0, 0, 0,
    ];
    assert!(rt; page_begins(rt.alloc(), &front) == Ok((1024, true)));
}
