// A whole script.
ghost use Rattle.std.specs.Prelude.{◌≡◌};
ghost use Rattle.sv_script.specs.Script.{IsScript};

use crate::line::Line;
use std::marker::Model;

/// The calls of one process, in order. A contract sees a script as the list of its lines.
#[derive(Debug, Drop)]
pub struct Script {
    lines: Vec<Line>,
}

impl Model for Script {
    ghost use Rattle.std.specs.Prelude.{List};
    ghost use Rattle.sv_script.specs.declared.line.Line.{Line};
    ghost use Rattle.sv_script.specs.Script.{IsScript};

    ghost Value = { List Line };

    ghost view = { λ s. s.lines.items };

    ghost invariant = { λ s. IsScript s.lines.items };
}

impl Script {
    pub fn from_vec(lines: Vec<Line>) -> Script
        requires { IsScript lines.items }
        ensures { result ≡ lines.items }
    {
        Script { lines }
    }

    pub fn as_slice(&self) -> &[Line]
        ensures value { result.now ≡ self.now }
        ensures script { IsScript self.now }
    {
        self.lines.as_slice()
    }
}
