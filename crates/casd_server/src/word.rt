//! `Word`.

ghost use Rattle.std.specs.Prelude.{◌≡◌, ◌↔◌, IsTrue};
ghost use Rattle.casd_server.specs.Word.{name_of, word_of, takes};

/// The word of a record: a method of the services, or one of the replay's own.
#[derive(Clone, Copy, Debug, PartialEq, Eq)]
pub enum Word {
    FindMissingBlobs,
    BatchUpdateBlobs,
    BatchReadBlobs,
    GetTree,
    GetCapabilities,
    Read,
    Write,
    QueryWriteStatus,
    FetchMissingBlobs,
    UploadMissingBlobs,
    FetchTree,
    UploadTree,
    StageTree,
    CaptureTree,
    CaptureFiles,
    /// Ends the seat's oldest stage.
    EndStage,
    /// The seat's owner goes.
    Close,
    /// An expiry pass, of seat 0 alone.
    Pass,
    /// The store's numbers, of seat 0 alone.
    Usage,
}

const WORDS: [Word; 19] = [
    Word::FindMissingBlobs,
    Word::BatchUpdateBlobs,
    Word::BatchReadBlobs,
    Word::GetTree,
    Word::GetCapabilities,
    Word::Read,
    Word::Write,
    Word::QueryWriteStatus,
    Word::FetchMissingBlobs,
    Word::UploadMissingBlobs,
    Word::FetchTree,
    Word::UploadTree,
    Word::StageTree,
    Word::CaptureTree,
    Word::CaptureFiles,
    Word::EndStage,
    Word::Close,
    Word::Pass,
    Word::Usage,
];

impl Word {
    /// How the word is written.
    pub fn name(self) -> &'static str
        ensures { result.now ≡ name_of self }
    {
        match self {
            Word::FindMissingBlobs => "FindMissingBlobs",
            Word::BatchUpdateBlobs => "BatchUpdateBlobs",
            Word::BatchReadBlobs => "BatchReadBlobs",
            Word::GetTree => "GetTree",
            Word::GetCapabilities => "GetCapabilities",
            Word::Read => "Read",
            Word::Write => "Write",
            Word::QueryWriteStatus => "QueryWriteStatus",
            Word::FetchMissingBlobs => "FetchMissingBlobs",
            Word::UploadMissingBlobs => "UploadMissingBlobs",
            Word::FetchTree => "FetchTree",
            Word::UploadTree => "UploadTree",
            Word::StageTree => "StageTree",
            Word::CaptureTree => "CaptureTree",
            Word::CaptureFiles => "CaptureFiles",
            Word::EndStage => "EndStage",
            Word::Close => "Close",
            Word::Pass => "Pass",
            Word::Usage => "Usage",
        }
    }

    /// The word that is written so.
    #[tactic(auto, unfolding(crate::specs::Word::word_of))]
    pub fn of_name(name: &[u8]) -> Option<Word>
        ensures { result ≡ word_of name.now }
    {
        WORDS
            .iter()
            .copied()
            .find(|word| word.name().as_bytes() == name)
    }

    /// Whether a record of this seat may have this word with so many messages.
    #[tactic(auto, unfolding(crate::specs::Word::takes))]
    pub fn takes(self, seat: u8, messages: usize) -> bool
        ensures { result ≡ takes seat self messages }
    {
        match self {
            Word::Pass | Word::Usage => seat == 0 && messages == 0,
            Word::EndStage | Word::Close => seat != 0 && messages == 0,
            Word::StageTree => seat != 0 && messages == 1,
            _ => seat != 0,
        }
    }
}
