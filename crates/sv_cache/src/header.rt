// One buffer: its header and its bytes.
ghost use Rattle.std.specs.Prelude.{◌≡◌, ◌↔◌, None, Some, IfOk, IsTrue, IsSome, replicate, length, true, false};
ghost use Rattle.sv_cache.specs.Cache.{Buffer, is_block};
ghost use Rattle.sv_cache.specs.Getblk.{renamed};
ghost use Rattle.sv_cache.specs.Brelse.{released};

use crate::{NoMemory, Release};
use std::alloc::Global;
use std::marker::Model;

#[derive(Drop)]
pub struct Header {
    block: Option<u32>,
    valid: bool,
    delayed: bool,
    marked: bool,
    bytes: Option<Vec<u8>>,
}

impl Model for Header {
    ghost use Rattle.std.specs.Prelude.{option_map};
    ghost use Rattle.sv_cache.specs.Cache.{Buffer};

    ghost Value = { Buffer };

    ghost view = { λ h. record {
      block = h.block;
      valid = h.valid;
      delayed = h.delayed;
      marked = h.marked;
      bytes = option_map (λ v. v.items) h.bytes;
    } };
}

impl Header {
    pub fn new(alloc: Global, block_size: u32) -> Result<Self, NoMemory>
        ensures { IfOk result (λ h. h ≡ record {
          block = None;
          valid = false;
          delayed = false;
          marked = false;
          bytes = Some (replicate block_size 0);
        }) }
    {
        let bytes = vec![in alloc; 0u8; block_size as usize]?;
        Ok(Header {
            block: None,
            valid: false,
            delayed: false,
            marked: false,
            bytes: Some(bytes),
        })
    }

    pub fn block(&self) -> Option<u32>
        ensures { result ≡ self.now.block }
    {
        self.block
    }

    pub fn names(&self, block: u32) -> bool
        ensures { result ≡ is_block self.now.block block }
    {
        match self.block {
            Some(named) => named == block,
            None => false,
        }
    }

    pub fn is_valid(&self) -> bool
        ensures { result ≡ self.now.valid }
    {
        self.valid
    }

    pub fn is_delayed(&self) -> bool
        ensures { result ≡ self.now.delayed }
    {
        self.delayed
    }

    pub fn is_marked(&self) -> bool
        ensures { result ≡ self.now.marked }
    {
        self.marked
    }

    pub fn rename(&mut self, block: u32)
        ensures { self.new ≡ renamed self.old block }
    {
        self.block = Some(block);
        self.valid = false;
        self.delayed = false;
        self.marked = false;
    }

    pub fn lend(&mut self) -> Vec<u8>
        requires { IsSome self.old.bytes }
        ensures lent { self.old.bytes ≡ Some result.items }
        ensures rest { self.new ≡ record self.old { bytes = None } }
    {
        self.bytes.take().unwrap()
    }

    pub fn give_back(&mut self, bytes: Vec<u8>, how: Release)
        ensures { self.new ≡ released self.old bytes.items how }
    {
        self.valid = match how {
            Release::Invalid => false,
            Release::Valid | Release::Old | Release::Delayed | Release::FailedWrite => true,
        };
        self.delayed = match how {
            Release::Delayed | Release::FailedWrite => true,
            Release::Valid | Release::Old | Release::Invalid => false,
        };
        self.marked = match how {
            Release::Delayed => self.marked,
            Release::FailedWrite => true,
            Release::Valid | Release::Old | Release::Invalid => false,
        };
        self.bytes = Some(bytes);
    }
}
