// What the check of an image says of its free blocks.
ghost use Rattle.std.specs.Prelude.{◌≡◌, ◌<◌, ◌≤◌, nat_lt};
ghost use Rattle.sv_form.specs.OwnerTable.{IsOwnerTable};
ghost use Rattle.sv_super.specs.Calls.{is_free, owned_lines};
ghost use Rattle.sv_super.specs.Count.{one_if, sum_below};

use sv_form::{Geometry, Owners, Place};

// How many data blocks belong to no inode.
pub(crate) fn count_free(sizes: Geometry, owners: &Owners) -> u32
    requires table { IsOwnerTable owners.now }
    requires sizes { owners.now.geometry ≡ sizes }
    ensures { result ≡ sum_below sizes.blocks (λ b. one_if (is_free owners.now b)) }
{
    let mut count = 0;
    for b in 0..sizes.blocks {
        count += u32::from(is_unowned(sizes, owners, b));
    }
    count
}

// Whether a block is a data block that belongs to no inode.
fn is_unowned(sizes: Geometry, owners: &Owners, b: u32) -> bool
    requires table { IsOwnerTable owners.now }
    requires sizes { owners.now.geometry ≡ sizes }
    requires block { b < sizes.blocks }
    ensures { result ≡ is_free owners.now b }
{
    (sizes.first_data <= b) & ((b < sizes.blocks) & (count_owned(sizes, owners, b) == 0))
}

// How many lines of a block belong to an inode.
fn count_owned(sizes: Geometry, owners: &Owners, block: u32) -> u32
    requires table { IsOwnerTable owners.now }
    requires sizes { owners.now.geometry ≡ sizes }
    requires block { block < sizes.blocks }
    ensures { result ≡ owned_lines owners.now block }
{
    let mut count = 0;
    for line in 0..sizes.block_lines() {
        let place = Place {
            block,
            line: line as u8,
        };
        count += u32::from(owners.owner(place) > 0);
    }
    count
}
