// The word for what blocks are promised for.
ghost use Rattle.std.specs.Prelude.{◌≡◌};
ghost use Rattle.sv_journal.specs.NeedName.{need_name, need_name_text};

/// What a line has blocks promised for.
#[derive(Clone, Copy, Debug, PartialEq, Eq)]
pub enum NeedName {
    Write,
    Enter,
    Make,
}

const NEED_NAMES: [NeedName; 3] = [NeedName::Write, NeedName::Enter, NeedName::Make];

impl NeedName {
    /// The need that has this word for its name.
    pub fn read(word: &[u8]) -> Option<NeedName>
        ensures { result ≡ need_name word.now }
    {
        NEED_NAMES
            .iter()
            .copied()
            .find(|name| name.text().as_bytes() == word)
    }

    pub fn text(self) -> &'static str
        ensures { result.now ≡ need_name_text self }
    {
        match self {
            NeedName::Write => "write",
            NeedName::Enter => "enter",
            NeedName::Make => "make",
        }
    }
}
