// What a pass stands for.
use std::marker::Model;

/// What a pass of the cache stands for. No value of it is made: it stands in proofs alone.
pub struct View {
    nothing: (),
}

impl Model for View {
    ghost use Rattle.sv_buf.specs.View.{View, blank};

    ghost Value = { View };

    ghost view = { λ v. blank };
}
