//! The keys of the documents.

ghost use Rattle.std.specs.Prelude.{◌≡◌};
ghost use Rattle.device_docs.specs.Keys.{key_text};

/// A key that a document must have. Those from `Version` on are a change's, the others a job document's.
#[derive(Clone, Copy, Debug, PartialEq, Eq)]
pub enum Key {
    /// `execution`, an object.
    Execution,
    /// `jobId`, a text.
    JobId,
    /// `versionNumber`, a whole number that isn't negative.
    VersionNumber,
    /// `jobDocument`, an object.
    JobDocument,
    /// `afr_ota`, an object.
    AfrOta,
    /// `protocols`, a list.
    Protocols,
    /// `streamname`, a text.
    StreamName,
    /// `files`, a list.
    Files,
    /// `filepath`, a text.
    FilePath,
    /// `filesize`, a whole number.
    FileSize,
    /// `fileid`, a whole number.
    FileId,
    /// `sha256`, a text.
    Sha256,
    /// `version`, a whole number that isn't negative.
    Version,
    /// `state`, an object.
    State,
    /// `desired`, an object.
    Desired,
}

impl Key {
    /// The key as it stands in a document.
    pub(crate) fn name(self) -> &'static str
        ensures { result.now ≡ key_text self }
    {
        match self {
            Key::Execution => "execution",
            Key::JobId => "jobId",
            Key::VersionNumber => "versionNumber",
            Key::JobDocument => "jobDocument",
            Key::AfrOta => "afr_ota",
            Key::Protocols => "protocols",
            Key::StreamName => "streamname",
            Key::Files => "files",
            Key::FilePath => "filepath",
            Key::FileSize => "filesize",
            Key::FileId => "fileid",
            Key::Sha256 => "sha256",
            Key::Version => "version",
            Key::State => "state",
            Key::Desired => "desired",
        }
    }
}
