// How many blocks a page takes.
ghost use Rattle.std.specs.Prelude.{◌≡◌, ◌≤◌, ◌<◌, not};
ghost use Rattle.std.specs.List.{count_by};
ghost use Rattle.std.specs.FinSet as set;
ghost use Rattle.sv_form.specs.Node.{blocks_at};
ghost use Rattle.sv_plain.specs.Totals.{one_if};

use crate::PairSet;
use sv_form::DIRECT;

/// How many of the page's own block and the indirect blocks above it the set lacks: 4 at most. An indirect block has
/// `per` numbers.
pub fn page_need(blocks: &PairSet, per: u32, page: u32) -> u32
    requires some { 0 < per }
    requires few { per < 1024 }
    ensures need { result ≡ count_by (λ block. not (set.contains blocks.now block)) (blocks_at per page) }
    ensures few { result ≤ 4 }
{
    let direct = missing(blocks, 0, page);
    if page < DIRECT {
        return direct;
    }
    let single = direct + missing(blocks, 1, (page - DIRECT) / per);
    let doubles = DIRECT + per;
    if page < doubles {
        return single;
    }
    let double = single + missing(blocks, 2, (page - doubles) / (per * per));
    let triples = doubles + per * per;
    if page < triples {
        return double;
    }
    double + missing(blocks, 3, 0)
}

// 1 where the set lacks the block, and 0 where it has it.
fn missing(blocks: &PairSet, height: u32, number: u32) -> u32
    ensures missing { result ≡ one_if (not (set.contains blocks.now (height, number))) }
    ensures few { result ≤ 1 }
{
    u32::from(!blocks.contains(height, number))
}
