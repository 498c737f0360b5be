// The links of inodes: condition 16 of a sound image.
ghost use Rattle.std.specs.Prelude.{◌≡◌, ◌≤◌, ◌+◌, ◌-◌, ◌^◌, ◌==◌, ◌&&◌, ◌||◌, ℕ, List, min, nat_lt, not, length};
ghost use Rattle.sv_form.specs.Geometry.{IsGeometry, inode_count};
ghost use Rattle.sv_form.specs.Image.{inode_of};
ghost use Rattle.sv_check.specs.Directories.{namings};
ghost use Rattle.sv_check.specs.InodeList.{is_free, link_counts, used_flags};
ghost use Rattle.sv_check.specs.Links.{has_wrong_links, links_flaw};
ghost use Rattle.sv_check.specs.Standings.{HaveTold};

use crate::inodes::InodeList;
use crate::sound::standings::Standings;
use sv_form::Geometry;

// How many links an inode may have.
const MOST_LINKS: u16 = 1_000;

/// The first used inode whose links are none, too many, or not the entries that name it.
pub(crate) fn first_mislinked(
    sizes: &Geometry,
    list: &InodeList,
    standings: &Standings,
) -> Option<u32>
    requires sizes { IsGeometry sizes.now }
    requires standings { length standings.now.of.items ≡ inode_count sizes.now + 1 }
    requires used { length list.now.used.items ≡ inode_count sizes.now }
    requires links { length list.now.links.items ≡ inode_count sizes.now }
    ensures { (image : List ℕ) → list.now.used.items ≡ used_flags sizes.now image → list.now.links.items ≡ link_counts sizes.now image
        → HaveTold sizes.now image standings.now → result ≡ links_flaw sizes.now image }
{
    for n in 1..sizes.inode_count() + 1 {
        if is_mislinked(sizes, list, standings, n) {
            return Some(n);
        }
    }
    None
}

// Whether inode n is used and has the wrong links.
fn is_mislinked(sizes: &Geometry, list: &InodeList, standings: &Standings, n: u32) -> bool
    requires sizes { IsGeometry sizes.now }
    requires standings { length standings.now.of.items ≡ inode_count sizes.now + 1 }
    requires used { length list.now.used.items ≡ inode_count sizes.now }
    requires links { length list.now.links.items ≡ inode_count sizes.now }
    requires least { 1 ≤ n }
    requires most { n ≤ inode_count sizes.now }
    ensures { (image : List ℕ) → list.now.used.items ≡ used_flags sizes.now image → list.now.links.items ≡ link_counts sizes.now image
        → HaveTold sizes.now image standings.now → result ≡ (not (is_free (inode_of sizes.now image n))
        && has_wrong_links (namings sizes.now image) n (inode_of sizes.now image n)) }
{
    let place = n as usize;
    if !list.used[place - 1] {
        return false;
    }
    has_wrong_links(list.links[place - 1], standings.of[place].times)
}

// Whether links are none, too many, or not the entries, which are counted up to 65,535.
fn has_wrong_links(links: u16, times: u16) -> bool
    ensures { (count : ℕ) → times ≡ min count (2 ^ 16 - 1) → result ≡ (nat_lt links 1 || nat_lt 1000 links || not (links == count)) }
{
    links < 1 || MOST_LINKS < links || links != times
}
