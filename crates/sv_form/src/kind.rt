// What an inode is.
ghost use Rattle.std.specs.Prelude.{◌≡◌};

/// What an inode is (Bach, chapter 4.1). Device files and pipes are not kept on these images.
#[derive(Clone, Copy, Debug, PartialEq, Eq)]
pub enum Kind {
    File,
    Dir,
}

impl Kind {
    ghost use Rattle.sv_form.specs.Kind.{letter};

    /// `f` for a regular file, `d` for a directory.
    pub fn letter(&self) -> u8
        ensures { result ≡ letter self.now }
    {
        match self {
            Kind::File => b'f',
            Kind::Dir => b'd',
        }
    }
}
