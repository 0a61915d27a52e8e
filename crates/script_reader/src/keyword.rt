//! The first words of lines.
ghost use Rattle.std.specs.Prelude.{◌≡◌};
ghost use Rattle.script_reader.specs.Keywords.{keyword_of};

/// What the first word of a line can be.
#[derive(Clone, Copy, Debug, PartialEq, Eq)]
pub(crate) enum Keyword {
    Anna,
    Workers,
    Factor,
    Round,
    Key,
    Session,
    Put,
    Get,
    Await,
    Begin,
    Commit,
    Abort,
    End,
    Unknown,
}

impl Keyword {
    /// The keyword that a word spells.
    pub(crate) fn of(word: &[u8]) -> Keyword
        ensures { result ≡ keyword_of word.now }
    {
        match word {
            b"anna" => Keyword::Anna,
            b"workers" => Keyword::Workers,
            b"factor" => Keyword::Factor,
            b"round" => Keyword::Round,
            b"key" => Keyword::Key,
            b"session" => Keyword::Session,
            b"put" => Keyword::Put,
            b"get" => Keyword::Get,
            b"await" => Keyword::Await,
            b"begin" => Keyword::Begin,
            b"commit" => Keyword::Commit,
            b"abort" => Keyword::Abort,
            b"end" => Keyword::End,
            _ => Keyword::Unknown,
        }
    }
}
