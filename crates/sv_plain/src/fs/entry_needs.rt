// What a name more in a directory takes.
ghost use Rattle.std.specs.Prelude.{◌≡◌, ◌≤◌};
ghost use Rattle.std.specs.FinMap as map;
ghost use Rattle.sv_plain.specs.Totals.{at_or_0};
ghost use Rattle.sv_plain.specs.Needs.{entry_need, enters_nothing, enter_need, make_need};

use crate::Fs;
use sv_form::Name;

impl Fs {
    // Nothing can be entered in d under this name.
    fn enters_nothing(&self, d: u16, name: &Name) -> bool
        ensures { result ≡ enters_nothing self.now d name.now }
    {
        !self.is_open_to_names(d) || self.child(d, name).is_some()
    }

    // What one entry more takes in d: nothing where an entry is empty or the last page has room, and else what a page at
    // the size adds.
    fn entry_need(&self, d: u16) -> u32
        ensures need { result ≡ at_or_0 (entry_need self.now.block) (map.get self.now.nodes d) }
        ensures few { result ≤ 4 }
    {
        let block = self.block_size();
        let Some(node) = self.node(d) else {
            return 0;
        };
        if node.empty_place(block).is_some() {
            return 0;
        }
        if node.size % block != 0 {
            return 0;
        }
        self.blocks_added(d, node.size / block)
    }

    // How many blocks entering the name in d takes.
    pub(crate) fn enter_need(&self, d: u16, name: &Name) -> u32
        ensures { result ≡ enter_need self.now d name.now }
    {
        if self.enters_nothing(d, name) {
            return 0;
        }
        self.entry_need(d)
    }

    // How many blocks making a directory of that name in d takes: one more, for its first page.
    pub(crate) fn make_need(&self, d: u16, name: &Name) -> u32
        ensures { result ≡ make_need self.now d name.now }
    {
        if self.enters_nothing(d, name) {
            return 0;
        }
        self.entry_need(d) + 1
    }
}
