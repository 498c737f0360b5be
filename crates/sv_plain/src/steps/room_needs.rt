// What a promise takes, counted no further than there is room.
ghost use Rattle.std.specs.Prelude.{◌≡◌, ◌≤◌, ◌+◌, ◌*◌, ◌&&◌, ◌==◌, nat_le, nat_lt};
ghost use Rattle.std.specs.List.{range_with_len};
ghost use Rattle.sv_form.specs.Node.{numbers_per};
ghost use Rattle.sv_form.specs.NodeChanges.{touched};
ghost use Rattle.sv_plain.specs.Fs.{room};
ghost use Rattle.sv_plain.specs.Missing.{node_blocks, added};
ghost use Rattle.sv_plain.specs.Needs.{need_of, write_need};
ghost use Rattle.sv_plain.specs.NeedsWithin.{within};

use crate::{Fs, Need};

impl Fs {
    // How many blocks more node i would use with `count` pages from `first` on, where that is at most `most`. Each page
    // beyond the blocks of the node takes a block, so where these alone are too many, no page is looked at.
    fn pages_need_within(&self, i: u16, first: u32, count: u32, most: u64) -> Option<u32>
        requires { first + 4 * count ≤ 4294967295 }
        ensures { result ≡ within most (added (node_blocks self.now i) (numbers_per self.now.block) (range_with_len first count)) }
    {
        let _block = self.block_size();
        let absent = u64::from(count).saturating_sub(self.block_count(i) as u64);
        if absent > most {
            return None;
        }
        let mut need = 0;
        for k in 0..count {
            need += self.page_need(i, first, first + k);
            let total = u64::from(need);
            if total > most {
                return None;
            }
        }
        Some(need)
    }

    // The same of the pages of `count` bytes from `at` on.
    fn range_need_within(&self, i: u16, at: u32, count: u32, most: u64) -> Option<u32>
        ensures { result ≡ within most (added (node_blocks self.now i) (numbers_per self.now.block) (touched self.now.block at count)) }
    {
        if count == 0 {
            return Some(0);
        }
        let block = u64::from(self.block_size());
        let first = u64::from(at) / block;
        let last = (u64::from(at) + u64::from(count) - 1) / block;
        self.pages_need_within(i, first as u32, (last - first + 1) as u32, most)
    }

    // The same of a write of so many bytes at a file's offset.
    fn write_need_within(&self, file: u16, count: u32, most: u64) -> Option<u32>
        ensures { result ≡ within most (write_need self.now file count) }
    {
        let Some(opening) = self.file(file) else {
            return Some(0);
        };
        let Some(_node) = self.node(opening.inode) else {
            return Some(0);
        };
        self.range_need_within(opening.inode, opening.offset, count, most)
    }

    // How many blocks the step takes at most, where that is at most `most`.
    fn need_within(&self, need: &Need, most: u64) -> Option<u32>
        ensures { result ≡ within most (need_of self.now need.now) }
    {
        match need {
            Need::Write { file, count } => self.write_need_within(*file, *count, most),
            Need::Enter { dir, name } => within(self.enter_need(*dir, name), most),
            Need::Make { dir, name } => within(self.make_need(*dir, name), most),
        }
    }

    // The step takes more blocks than there is room for.
    pub(crate) fn exceeds_room(&self, need: &Need) -> bool
        ensures { result ≡ nat_lt (room self.now) (need_of self.now need.now) }
    {
        match self.need_within(need, self.room()) {
            Some(_) => false,
            None => true,
        }
    }

    // There is room for the step, which takes so many blocks.
    pub(crate) fn takes_room(&self, need: &Need, blocks: u32) -> bool
        ensures { result ≡ (nat_le (need_of self.now need.now) (room self.now) && (blocks == need_of self.now need.now)) }
    {
        match self.need_within(need, self.room()) {
            Some(need) => blocks == need,
            None => false,
        }
    }
}

// A number that is at most `most`.
fn within(need: u32, most: u64) -> Option<u32>
    ensures { result ≡ within most need }
{
    if u64::from(need) > most {
        return None;
    }
    Some(need)
}
