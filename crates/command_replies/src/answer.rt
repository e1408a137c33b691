//! The answers of all commands, each with its status from 0 to 8.

/// How a command ended.
#[derive(Clone, Copy)]
pub enum Answer {
    /// Status 0: what was asked for is written.
    Done,
    /// Status 1: a rule fails, or a line of the certificate is bad. The first one is written.
    No,
    /// Status 2: the words have no listed form. The usage line is written.
    Usage,
    /// Status 3: the file is refused. Its first failing line and the reason are written.
    BadFile,
    /// Status 4: a read of the file or of the certificate failed. Nothing is written.
    ReadFault,
    /// Status 5: a write failed. A part of the text is written.
    WriteFault,
    /// Status 6: memory ran out. Nothing is written.
    NoMemory,
    /// Status 7: the solid can't be extracted. The entity and the reason are written.
    NoExtract,
    /// Status 8: the file, the certificate or the extracted text has more bytes than it may have. Nothing is written.
    TooLarge,
}

impl Answer {
    ghost use Rattle.std.specs.Prelude.{◌≡◌};
    ghost use Rattle.command_replies.specs.Answer.{code_of};

    /// The status with which the program ends, from 0 to 8.
    pub fn code(&self) -> u8
        ensures { result ≡ code_of self.now }
    {
        match self {
            Answer::Done => 0,
            Answer::No => 1,
            Answer::Usage => 2,
            Answer::BadFile => 3,
            Answer::ReadFault => 4,
            Answer::WriteFault => 5,
            Answer::NoMemory => 6,
            Answer::NoExtract => 7,
            Answer::TooLarge => 8,
        }
    }
}
