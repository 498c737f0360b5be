// The bytes of a node, compared and counted.
ghost use Rattle.std.specs.Prelude.{◌≡◌, ◌<◌, ◌≤◌, ◌+◌, length};
ghost use Rattle.sv_form.specs.Node.{bytes_of};
ghost use Rattle.sv_plain.specs.Names.{same_bytes};
ghost use Rattle.sv_plain.specs.Step.{file_bytes};

use crate::Node;

impl Node {
    // The node has these bytes from `at` on.
    fn has_bytes(&self, block: u32, at: u32, bytes: &[u8]) -> bool
        requires some { 0 < block }
        requires fits { at + length bytes.now ≤ 4294967295 }
        ensures { result ≡ same_bytes bytes.now (bytes_of block self.now at (length bytes.now)) }
    {
        let mut near = (0, self.page(0));
        for k in 0..bytes.len() {
            let place = at + k as u32;
            near = self.page_near(near.0, near.1, place / block);
            let byte = self.byte_near(near.0, near.1, block, place);
            if byte != bytes[k] {
                return false;
            }
        }
        true
    }

    // These are the bytes that a read of `count` gets from `at` on, up to the size.
    pub(crate) fn reads_as(&self, block: u32, at: u32, count: u32, bytes: &[u8]) -> bool
        requires { 0 < block }
        ensures { result ≡ same_bytes bytes.now (file_bytes block self.now at count) }
    {
        let left = self.size.saturating_sub(at).min(count);
        if bytes.len() != left as usize {
            return false;
        }
        if left == 0 {
            return true;
        }
        self.has_bytes(block, at, bytes)
    }
}
