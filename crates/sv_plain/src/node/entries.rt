// The bytes of a node, and the entries of a directory among them.
ghost use Rattle.std.specs.Prelude.{◌≡◌, ◌<◌, ◌≤◌, ◌+◌, ◌*◌, ◌==◌, ℕ, true, false, not, drop, Some, IfSome, option_copied};
ghost use Rattle.std.specs.FinMap as map;
ghost use Rattle.sv_form.specs.Node.{page_byte, byte_of, bytes_of, until_zero, entry_inode, entry_name, entry_count};
ghost use Rattle.sv_plain.specs.Names.{same_bytes, is_entry, place_of, empty_place, child_of, has_more};

use crate::Node;

// How many bytes an entry has, and how many of them its name.
const ENTRY: u32 = 16;

const NAME: u32 = 14;

// Byte r of a page; an absent page reads as zero bytes.
pub(crate) fn byte_of_page(page: Option<&[u8]>, r: u32) -> u8
    ensures { result ≡ page_byte (option_copied page.entry) r }
{
    let Some(bytes) = page else {
        return 0;
    };
    match bytes.get(r as usize) {
        Some(byte) => *byte,
        None => 0,
    }
}

impl Node {
    // Byte k of the node. A block has so many bytes.
    #[tactic(auto, unfolding(sv_form::specs::Node::byte_of))]
    pub(crate) fn byte(&self, block: u32, k: u32) -> u8
        requires { 0 < block }
        ensures { result ≡ byte_of block self.now k }
    {
        let Some(page) = self.page(k / block) else {
            return 0;
        };
        match page.get((k % block) as usize) {
            Some(byte) => *byte,
            None => 0,
        }
    }

    // Byte k of the node, where the page of this number was looked up before.
    pub(crate) fn byte_near(&self, number: u32, page: Option<&[u8]>, block: u32, k: u32) -> u8
        requires some { 0 < block }
        requires page { option_copied page ≡ map.get self.now.pages number }
        ensures { result ≡ byte_of block self.now k }
    {
        if k / block != number {
            return self.byte(block, k);
        }
        byte_of_page(page, k % block)
    }

    pub(crate) fn entry_count(&self) -> u32
        ensures { result ≡ entry_count self.now }
    {
        self.size / ENTRY
    }

    // Where the bytes of entry j begin.
    fn place_in_bytes(&self, j: u32) -> u32
        requires { j < entry_count self.now }
        ensures begins { result ≡ 16 * j }
        ensures ends { result + 16 ≤ 4294967295 }
    {
        let last = self.size / ENTRY - 1;
        ENTRY * j.min(last)
    }

    // The page of this number, and the number, where another page was looked up before.
    pub(crate) fn page_near<'a>(
        &'a self,
        number: u32,
        page: Option<&'a [u8]>,
        here: u32,
    ) -> (u32, Option<&'a [u8]>)
        requires page { option_copied page ≡ map.get self.now.pages number }
        ensures page { option_copied result.1 ≡ map.get self.now.pages result.0 }
    {
        if here == number {
            return (number, page);
        }
        (here, self.page(here))
    }

    // The page that entry j stands in, and its number, where another page was looked up before.
    fn page_of_entry<'a>(
        &'a self,
        number: u32,
        page: Option<&'a [u8]>,
        block: u32,
        j: u32,
    ) -> (u32, Option<&'a [u8]>)
        requires some { 0 < block }
        requires page { option_copied page ≡ map.get self.now.pages number }
        requires within { j < entry_count self.now }
        ensures page { option_copied result.1 ≡ map.get self.now.pages result.0 }
    {
        self.page_near(number, page, self.place_in_bytes(j) / block)
    }

    // The number in entry j, where the page of this number was looked up before.
    #[tactic(auto, unfolding(sv_form::specs::Node::entry_inode))]
    fn inode_near(&self, number: u32, page: Option<&[u8]>, block: u32, j: u32) -> u16
        requires some { 0 < block }
        requires page { option_copied page ≡ map.get self.now.pages number }
        requires within { j < entry_count self.now }
        ensures { result ≡ entry_inode block self.now j }
    {
        let first = self.place_in_bytes(j);
        let low = self.byte_near(number, page, block, first);
        let high = self.byte_near(number, page, block, first + 1);
        u16::from(low) + 256 * u16::from(high)
    }

    // The number in entry j.
    #[tactic(auto, unfolding(sv_form::specs::Node::entry_inode))]
    pub(crate) fn entry_inode(&self, block: u32, j: u32) -> u16
        requires some { 0 < block }
        requires within { j < entry_count self.now }
        ensures { result ≡ entry_inode block self.now j }
    {
        let first = self.place_in_bytes(j);
        let low = self.byte(block, first);
        let high = self.byte(block, first + 1);
        u16::from(low) + 256 * u16::from(high)
    }

    // Entry j has this name in its last fourteen bytes, whose first zero ends it.
    fn has_name(&self, number: u32, page: Option<&[u8]>, block: u32, j: u32, name: &[u8]) -> bool
        requires some { 0 < block }
        requires page { option_copied page ≡ map.get self.now.pages number }
        requires within { j < entry_count self.now }
        ensures { result ≡ same_bytes (entry_name block self.now j) name.now }
    {
        let first = self.place_in_bytes(j) + 2;
        for k in 0..NAME {
            let byte = self.byte_near(number, page, block, first + k);
            let place = k as usize;
            if place == name.len() {
                return byte == 0;
            }
            if byte == 0 {
                return false;
            }
            if byte != name[place] {
                return false;
            }
        }
        name.len() == NAME as usize
    }

    // Entry j is not empty, and has this name.
    fn is_entry(&self, number: u32, page: Option<&[u8]>, block: u32, j: u32, name: &[u8]) -> bool
        requires some { 0 < block }
        requires page { option_copied page ≡ map.get self.now.pages number }
        requires within { j < entry_count self.now }
        ensures { result ≡ is_entry block self.now name.now j }
    {
        self.inode_near(number, page, block, j) != 0 && self.has_name(number, page, block, j, name)
    }

    // The first entry with this name, looked for among all.
    fn place_among(&self, block: u32, name: &[u8]) -> Option<u32>
        requires { 0 < block }
        ensures { result ≡ place_of block self.now name.now }
    {
        let mut near = (0, self.page(0));
        for j in 0..self.entry_count() {
            near = self.page_of_entry(near.0, near.1, block, j);
            if self.is_entry(near.0, near.1, block, j, name) {
                return Some(j);
            }
        }
        None
    }

    // Where the index has this name, if there is one.
    fn indexed_place(&self, block: u32, name: &[u8]) -> Option<Option<u32>>
        requires { 0 < block }
        ensures { IfSome result (λ place. (j : ℕ) → is_entry block self.now name.now j ≡ true → place ≡ Some j) }
    {
        if block % ENTRY != 0 {
            return None;
        }
        self.pages.place(block / ENTRY, name)
    }

    // The place, where this name stands there: it stands at no other.
    fn place_if(&self, block: u32, name: &[u8], place: Option<u32>) -> Option<u32>
        requires some { 0 < block }
        requires only { (j : ℕ) → is_entry block self.now name.now j ≡ true → place ≡ Some j }
        ensures { result ≡ place_of block self.now name.now }
    {
        let Some(j) = place else {
            return None;
        };
        if j >= self.entry_count() {
            return None;
        }
        let near = self.page_of_entry(0, self.page(0), block, j);
        if !self.is_entry(near.0, near.1, block, j, name) {
            return None;
        }
        Some(j)
    }

    // The first entry with this name. With an index of the names this costs a logarithm.
    pub(crate) fn place_of(&self, block: u32, name: &[u8]) -> Option<u32>
        requires { 0 < block }
        ensures { result ≡ place_of block self.now name.now }
    {
        match self.indexed_place(block, name) {
            Some(place) => self.place_if(block, name, place),
            None => self.place_among(block, name),
        }
    }

    // No entry before this one is empty.
    fn full_before(&self, block: u32) -> u32
        requires { 0 < block }
        ensures { (k : ℕ) → k < result → (entry_inode block self.now k == 0) ≡ false }
    {
        if block % ENTRY != 0 {
            return 0;
        }
        self.pages.first_empty(block / ENTRY)
    }

    // The first empty entry. With an index of the names it is the first one that is looked at.
    pub(crate) fn empty_place(&self, block: u32) -> Option<u32>
        requires { 0 < block }
        ensures { result ≡ empty_place block self.now }
    {
        let mut near = (0, self.page(0));
        for j in self.full_before(block)..self.entry_count() {
            near = self.page_of_entry(near.0, near.1, block, j);
            if self.inode_near(near.0, near.1, block, j) == 0 {
                return Some(j);
            }
        }
        None
    }

    // An entry besides the first two is not empty.
    pub(crate) fn has_more(&self, block: u32) -> bool
        requires { 0 < block }
        ensures { result ≡ has_more block self.now }
    {
        let mut near = (0, self.page(0));
        for j in 2..self.entry_count() {
            near = self.page_of_entry(near.0, near.1, block, j);
            if self.inode_near(near.0, near.1, block, j) != 0 {
                return true;
            }
        }
        false
    }

    // The inode that the name leads to.
    pub(crate) fn child_of(&self, block: u32, name: &[u8]) -> Option<u16>
        requires { 0 < block }
        ensures { result ≡ child_of block self.now name.now }
    {
        let Some(j) = self.place_of(block, name) else {
            return None;
        };
        Some(self.entry_inode(block, j))
    }
}
