// What a pass stands for.
use std::marker::Model;

/// What a pass of the file turn stands for. No value of it is made: it stands in proofs alone.
pub struct View {
    nothing: (),
}

impl Model for View {
    ghost use Rattle.std.specs.Coded.{codes};
    ghost use Rattle.sv_plain.specs.Fs.{fs_code};
    ghost use Rattle.sv_files.specs.View.{View, blank};

    ghost Value = { View };

    ghost view = { λ v. blank };

    ghost coded = { Prim.hlevel (codes, fs_code) };
}
