// A block lent out.
ghost use Rattle.std.specs.Prelude.{◌≡◌, length};
ghost use Rattle.std.specs.Borrow.{sem};
ghost use Rattle.sv_store.specs.BufLends.{LendsBytes};

use std::marker::Model;

/// One block that a stake has lent out. It is no value to let go: it goes back to its stake by `brelse`, `bdwrite`
/// or `bwrite`.
#[derive(Debug)]
pub struct Buf {
    block: u32,
    bytes: Vec<u8>,
}

impl Model for Buf {
    ghost use Rattle.sv_store.specs.Loan.{Loan};

    ghost Value = { Loan };

    ghost view = { λ buf. record { block = buf.block; bytes = buf.bytes.items } };
}

impl Buf {
    /// A stake makes one.
    pub fn new(block: u32, bytes: Vec<u8>) -> Buf
        ensures block { result.block ≡ block }
        ensures bytes { result.bytes ≡ bytes.items }
    {
        Buf { block, bytes }
    }

    /// The number of the block.
    pub fn block(&self) -> u32
        ensures { result ≡ self.now.block }
    {
        self.block
    }

    /// The bytes of the block.
    pub fn bytes(&self) -> &[u8]
        ensures { result.now ≡ self.now.bytes }
    {
        self.bytes.as_slice()
    }

    /// The bytes of the block, to be written.
    pub fn bytes_mut(&mut self) -> &mut [u8]
        ensures* lends { sem 𝓛 (LendsBytes self.entry result) }
        ensures now { result.now ≡ self.old.bytes }
    {
        self.bytes.as_mut_slice()
    }

    /// A stake ends one.
    pub fn into_bytes(self) -> Vec<u8>
        ensures { result.items ≡ self.bytes }
    {
        let Buf { block: _, bytes } = self;
        bytes
    }
}
