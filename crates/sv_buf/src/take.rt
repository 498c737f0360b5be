// How a buffer whose block is known is taken with its bytes.
ghost use Rattle.std.specs.Prelude.{◌≡◌, None, Some, IsSome, slice_set, vec_len};
ghost use Rattle.sv_links.specs.Arrangement.{without};
ghost use Rattle.sv_cache.specs.Cache.{buffer_at, IsBusy};
ghost use Rattle.sv_cache.specs.Lawful.{IsLawful};

use sv_cache::{CacheCore, Scenario};

// Takes a buffer whose bytes are in, free or queued, and moves them out.
pub fn take_out<D>(core: &mut CacheCore<D>, buffer: u32, block: u32) -> Vec<u8>
    requires lawful { IsLawful core.old }
    requires named { (buffer_at core.old buffer).block ≡ Some block }
    requires home { IsSome (buffer_at core.old buffer).bytes }
    ensures bytes { (buffer_at core.old buffer).bytes ≡ Some result.items }
    ensures size { vec_len result ≡ core.old.geometry.block_size }
    ensures after { core.new ≡ record core.old {
      buffers = slice_set core.old.buffers buffer (record (buffer_at core.old buffer) { bytes = None });
      free = without buffer core.old.free;
    } }
    ensures busy { IsBusy core.new buffer }
    ensures lawful { IsLawful core.new }
{
    match core.attempt(block) {
        Scenario::Hit(found) => core.lend(found),
        Scenario::Busy(found) => core.lend(found),
        Scenario::Taken(_) => unreachable!(),
        Scenario::Delayed(_) => unreachable!(),
        Scenario::Empty => unreachable!(),
    }
}
