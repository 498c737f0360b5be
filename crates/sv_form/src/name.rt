// The name of one entry of a directory.
ghost use Rattle.std.specs.Prelude.{◌≡◌, ◌↔◌, ◌≤◌, ◌<◌, IsSome, IfSome, IsTrue, All};
ghost use Rattle.sv_form.specs.Name.{IsName, IsNameByte};

use std::marker::Model;

/// The most bytes that a name has (Bach, chapter 4.3).
pub const NAME_MAX: usize = 14;

/// The name of an entry: 1 to 14 bytes, none of them a slash or zero. A contract sees it as the list of its bytes.
#[derive(Clone, Copy, Debug, PartialEq, Eq)]
pub struct Name {
    bytes: [u8; 14],
    len: u8,
}

impl Model for Name {
    ghost use Rattle.std.specs.Prelude.{List, ℕ, take};

    ghost Value = { List ℕ };

    ghost use Rattle.sv_form.specs.NameInside.{IsInside, inside_of, inside_of-take};

    ghost view = { λ n. take n.len n.bytes };

    ghost invariant = { IsInside };

    ghost inverse = { inside_of };

    ghost inverse_ok = { inside_of-take };
}

impl Name {
    /// The name that these bytes are.
    pub fn read(from: &[u8]) -> Option<Name>
        ensures variant { IsSome result ↔ IsName from.now }
        ensures value { IfSome result (λ n. n ≡ from.now) }
    {
        if from.is_empty() {
            return None;
        }
        if from.len() > NAME_MAX {
            return None;
        }
        if !are_name_bytes(from) {
            return None;
        }
        let mut bytes = [0; 14];
        bytes[..from.len()].copy_from_slice(from);
        Some(Name {
            bytes,
            len: from.len() as u8,
        })
    }

    pub fn as_slice(&self) -> &[u8]
        ensures value { result.now ≡ self.now }
        ensures name { IsName self.now }
    {
        &self.bytes[..self.len as usize]
    }
}

fn are_name_bytes(from: &[u8]) -> bool
    ensures { IsTrue result ↔ All IsNameByte from.now }
{
    from.iter().all(|&b| b != 0 && b != b'/')
}
