// What holds of the steps themselves, without code.
ghost use Rattle.sv_plain.specs.declared.history.op.Op.{Op};
ghost use Rattle.sv_plain.specs.Laws.{EntersName, KeepsWhole};

/// A step of any op leaves a whole file system whole, whichever reply it has. Of ops that enter a name this is said of
/// names (1 to 14 bytes, no slash or zero).
pub fn steps_keep_whole()
    ensures { (op : Op) → EntersName op → KeepsWhole op }
{}
