// A tree as text.
ghost use Rattle.std.specs.Prelude.{◌≡◌, ◌<◌, ◌^◌, ◌++◌, IfOk};
ghost use Rattle.std.specs.FinMap as map;
ghost use Rattle.std.specs.String.{string_bytes};
ghost use Rattle.sv_plain.specs.Listing.{counts_text, front_text, kind_word, line_at, listing_text, node_line};

use crate::{Fs, NoMemory, Node};
use std::alloc::Global;
use std::fmt::Write;
use sv_form::Kind;

/// One line for each node, in the order of the inode numbers: `inode I KIND MODE links L size S pages P`, where KIND is
/// `f` or `d`, MODE is octal, the size is in bytes, and P is the number of pages that are present. Each line ends with a
/// newline byte. The numbers up to the count of inodes are gone through once.
pub fn listing(alloc: Global, fs: &Fs) -> Result<Vec<u8>, NoMemory>
    ensures { IfOk result (λ text. text.items ≡ listing_text fs.now) }
{
    let mut text = String::new(alloc);
    for i in 0..fs.inode_count() + 1 {
        push_line(&mut text, fs, i)?;
    }
    Ok(text.into_bytes())
}

// The line of inode i, where it has a node.
fn push_line(text: &mut String, fs: &Fs, i: u32) -> Result<(), NoMemory>
    ensures { IfOk result (λ _. string_bytes text.new ≡ string_bytes text.old ++ line_at i (map.get fs.now.nodes i)) }
{
    match fs.node_at(i) {
        Some(node) => push_node(text, i, node),
        None => Ok(()),
    }
}

fn push_node(text: &mut String, i: u32, node: &Node) -> Result<(), NoMemory>
    ensures { IfOk result (λ _. string_bytes text.new ≡ string_bytes text.old ++ node_line i node.now) }
{
    let pages = node.page_count();
    push_front(text, i, node)?;
    push_counts(text, node.links, node.size, pages)
}

fn push_front(text: &mut String, i: u32, node: &Node) -> Result<(), NoMemory>
    ensures { IfOk result (λ _. string_bytes text.new ≡ string_bytes text.old ++ front_text i node.now) }
{
    let kind = kind_word(node.kind);
    let mode = node.mode;
    write!(text, "inode {i} {kind} {mode:o}")
}

fn push_counts(text: &mut String, links: u16, size: u32, pages: usize) -> Result<(), NoMemory>
    ensures { IfOk result (λ _. string_bytes text.new ≡ string_bytes text.old ++ counts_text links size pages) }
{
    write!(text, " links {links} size {size} pages {pages}\n")
}

fn kind_word(kind: Kind) -> &'static str
    ensures { result.now ≡ kind_word kind }
{
    match kind {
        Kind::File => "f",
        Kind::Dir => "d",
    }
}
