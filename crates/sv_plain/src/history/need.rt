use sv_form::Name;

/// What a process has blocks promised for: a write of so many bytes at a file's offset, a name entered in a directory, or
/// a directory made there.
#[derive(Clone, Copy, Drop)]
pub enum Need {
    Write { file: u16, count: u32 },
    Enter { dir: u16, name: Name },
    Make { dir: u16, name: Name },
}
