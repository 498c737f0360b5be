// How a buffer that is out gets new bytes, which are still to be written.
ghost use Rattle.std.specs.Prelude.{◌≡◌, None, Some, vec_len};
ghost use Rattle.sv_cache.specs.Cache.{buffer_at, IsBusy};
ghost use Rattle.sv_cache.specs.Lawful.{IsLawful};
ghost use Rattle.sv_buf.specs.Delaying.{delayed_at};

use sv_cache::{CacheCore, Release};

// Marks a buffer whose bytes are out as still to be written, with these bytes: it is released with them, and taken again at once.
pub fn delay<D>(core: &mut CacheCore<D>, buffer: u32, block: u32, bytes: Vec<u8>) -> Vec<u8>
    requires busy { IsBusy core.old buffer }
    requires out { (buffer_at core.old buffer).bytes ≡ None }
    requires size { vec_len bytes ≡ core.old.geometry.block_size }
    requires named { (buffer_at core.old buffer).block ≡ Some block }
    ensures bytes { result.items ≡ bytes.items }
    ensures size { vec_len result ≡ core.old.geometry.block_size }
    ensures after { core.new ≡ delayed_at core.old buffer }
    ensures lawful { IsLawful core.new }
{
    core.give_back(buffer, bytes, Release::Delayed);
    core.attempt(block);
    core.lend(buffer)
}
