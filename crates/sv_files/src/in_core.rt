use sv_form::InodeBody;

/// What is kept of an inode in core (Bach, chapter 4.1.1): its body, and whether a step has changed it there since its line was
/// read or put.
#[derive(Clone, Copy)]
pub struct InCore {
    pub(crate) body: InodeBody,
    pub(crate) changed: bool,
}
