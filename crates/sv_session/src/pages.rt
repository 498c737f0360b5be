// The pages of a file, from the disk to the sink, in pieces of many pages.
ghost use Rattle.std.specs.Prelude.{◌≡◌, ◌≤◌, ◌+◌, ◌*◌, ◌++◌, length, take, IfOk, IfErr, OnOk, OnErr};
ghost use Rattle.sv_dev.specs.Causes.{HasCause, Rose};
ghost use Rattle.sv_dev.specs.Told.{grown, AppendsFront};
ghost use Rattle.sv_form.specs.Geometry.{IsGeometry};
ghost use Rattle.sv_plain.specs.Front.{file_bytes};
ghost use Rattle.sv_check.specs.FilePages.{AreInData, AreInOrder, block_at};
ghost use Rattle.sv_session.specs.Pages.{IsGathered, IsHoleOrData, page_bytes};
ghost use Rattle.sv_session.specs.Transfer.{Transfers};

use crate::Stop;
use sv_check::{PageBlock, next_block, read_block};
use sv_dev::{Disk, Failed, Sink};
use sv_form::Geometry;

/// How many blocks a piece has that is written at once.
pub const PIECE_BLOCKS: usize = 64;

/// Writes the bytes of a file of that size whose pages stand in these blocks, in pieces of 64 blocks; an absent page is zero
/// bytes. It reads each page once. The slice has a piece's length.
pub fn write_file<D: Disk, O: Sink>(
    disk: &mut D,
    sizes: &Geometry,
    pages: &[PageBlock],
    size: u32,
    piece: &mut [u8],
    out: &mut O,
) -> Result<(), Stop>
    requires sizes { IsGeometry sizes.now }
    requires length { length (D.content disk.old) ≡ sizes.now.blocks * sizes.now.block_size }
    requires piece { length piece.old ≡ PIECE_BLOCKS * sizes.now.block_size }
    requires inside { AreInData sizes.now pages.now }
    requires order { AreInOrder pages.now }
    ensures ok { OnOk result (O.written out.new ≡ grown (O.written out.old)
        (file_bytes sizes.now (D.content disk.old) (block_at pages.now) size)) }
    ensures err { OnErr result (AppendsFront (O.written out.old) (O.written out.new)
        (file_bytes sizes.now (D.content disk.old) (block_at pages.now) size)) }
    ensures reason { IfErr result (Transfers (Rose (D.faults disk.old) (D.faults disk.new)) (Rose (O.faults out.old) (O.faults out.new))) }
    ensures content { D.content disk.new ≡ D.content disk.old }
    ensures disk_faults { D.faults disk.old ≤ D.faults disk.new }
    ensures sink_faults { O.faults out.old ≤ O.faults out.new }
{
    let mut at = 0;
    let mut filled = 0;
    for page in 0..size.div_ceil(sizes.block_size) {
        let count = sizes.block_size.min(size - page * sizes.block_size);
        let address = next_block(pages, &mut at, page);
        let left = make_room(sizes, piece, filled, out)?;
        add_page(disk, sizes, address, piece, left)?;
        filled = left + count as usize;
    }
    write_piece(&piece[..filled], out)
}

// Where there is no room for a block more, writes what is gathered. It answers how many bytes are gathered then.
fn make_room<O: Sink>(
    sizes: &Geometry,
    piece: &[u8],
    filled: usize,
    out: &mut O,
) -> Result<usize, Stop>
    requires filled { filled ≤ length piece.now }
    requires piece { sizes.now.block_size ≤ length piece.now }
    ensures room { IfOk result (λ left. left + sizes.now.block_size ≤ length piece.now) }
    ensures ok { IfOk result (λ left. IsGathered (O.written out.old) (O.written out.new) (take filled piece.now) (take left piece.now)) }
    ensures err { OnErr result (AppendsFront (O.written out.old) (O.written out.new) (take filled piece.now)) }
    ensures reason { IfErr result (Transfers ⊥ (Rose (O.faults out.old) (O.faults out.new))) }
    ensures sink_faults { O.faults out.old ≤ O.faults out.new }
{
    if piece.len() - filled >= sizes.block_size as usize {
        return Ok(filled);
    }
    write_piece(&piece[..filled], out)?;
    Ok(0)
}

// Writes what is gathered.
fn write_piece<O: Sink>(piece: &[u8], out: &mut O) -> Result<(), Stop>
    ensures ok { OnOk result (O.written out.new ≡ grown (O.written out.old) piece.now) }
    ensures err { OnErr result (AppendsFront (O.written out.old) (O.written out.new) piece.now) }
    ensures reason { IfErr result (Transfers ⊥ (Rose (O.faults out.old) (O.faults out.new))) }
    ensures sink_faults { O.faults out.old ≤ O.faults out.new }
{
    let Ok(()) = out.write(piece) else {
        return Err(Stop::WriteFault);
    };
    Ok(())
}

// Puts the page that an address names behind what is gathered.
fn add_page<D: Disk>(
    disk: &mut D,
    sizes: &Geometry,
    address: u32,
    piece: &mut [u8],
    filled: usize,
) -> Result<(), Stop>
    requires sizes { IsGeometry sizes.now }
    requires length { length (D.content disk.old) ≡ sizes.now.blocks * sizes.now.block_size }
    requires room { filled + sizes.now.block_size ≤ length piece.old }
    requires address { IsHoleOrData sizes.now address }
    ensures bytes { OnOk result (take (filled + sizes.now.block_size) piece.new
        ≡ take filled piece.old ++ page_bytes sizes.now (D.content disk.old) address) }
    ensures reason { IfErr result (Transfers (Rose (D.faults disk.old) (D.faults disk.new)) ⊥) }
    ensures content { D.content disk.new ≡ D.content disk.old }
    ensures disk_faults { D.faults disk.old ≤ D.faults disk.new }
{
    let end = filled + sizes.block_size as usize;
    let Ok(()) = read_page(disk, sizes, address, &mut piece[filled..end]) else {
        return Err(Stop::DeviceFault);
    };
    Ok(())
}

// Reads the page that an address names; a hole has zero bytes.
fn read_page<D: Disk>(
    disk: &mut D,
    sizes: &Geometry,
    address: u32,
    block: &mut [u8],
) -> Result<(), Failed>
    requires sizes { IsGeometry sizes.now }
    requires length { length (D.content disk.old) ≡ sizes.now.blocks * sizes.now.block_size }
    requires block { length block.old ≡ sizes.now.block_size }
    requires address { IsHoleOrData sizes.now address }
    ensures bytes { OnOk result (block.new ≡ page_bytes sizes.now (D.content disk.old) address) }
    ensures content { D.content disk.new ≡ D.content disk.old }
    ensures cause { HasCause (D.faults disk.old) (D.faults disk.new) result }
{
    if address == 0 {
        block.fill(0);
        return Ok(());
    }
    read_block(disk, sizes, address, block)
}
