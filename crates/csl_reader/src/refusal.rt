//! Why a text is no accepted program.

ghost use Rattle.std.specs.Prelude.{◌≡◌};
ghost use Rattle.csl_reader.specs.Words as words;

use csl_lexer::LexError;
use csl_parser::ParseError;
use type_check::checked::CheckError;
use type_check::fault::CheckKind;

/// What is wrong with a text. The words for each are in the table of refusals of `docs/LANGUAGE.md`.
#[derive(Clone, Copy, Debug, PartialEq, Eq)]
pub enum Refusal {
    /// A byte begins no token, blank or comment.
    BadByte,
    /// A name or keyword has more than 64 bytes.
    LongName,
    /// A number is above 9223372036854775807.
    LongNumber,
    /// `/*` has no `*/` behind it.
    OpenComment,
    /// A line or the text ends before the closing `"`.
    OpenText,
    /// A token's level is above 64.
    TooDeep,
    /// No program has this token behind those before it.
    Unexpected,
    /// The program has a fault of names, types, effects or limits.
    Faulty(CheckKind),
}

/// The words for a fault of a program.
fn fault_words(kind: CheckKind) -> &'static str
    ensures { result.now ≡ words.fault_words kind }
{
    match kind {
        CheckKind::UnknownName => "unknown name",
        CheckKind::NameTaken => "name taken",
        CheckKind::WrongUse => "wrong use of a name",
        CheckKind::WrongType => "wrong type",
        CheckKind::WrongCount => "wrong number of arguments",
        CheckKind::NoReturn => "no return",
        CheckKind::WrongReturn => "wrong return",
        CheckKind::NotInLoop => "not in a loop",
        CheckKind::OnlyInMain => "only in main",
        CheckKind::TallyUsed => "tally used",
        CheckKind::Limit => "limit",
    }
}

impl Refusal {
    ghost use Rattle.std.specs.Prelude.{◌≡◌};
    ghost use Rattle.csl_reader.specs.Words as words;

    /// The words that tell of it.
    pub fn words(&self) -> &'static str
        ensures { result.now ≡ words.words_of self.now }
    {
        match self {
            Refusal::BadByte => "bad byte",
            Refusal::LongName => "name too long",
            Refusal::LongNumber => "number too large",
            Refusal::OpenComment => "open comment",
            Refusal::OpenText => "open text",
            Refusal::TooDeep => "too deep",
            Refusal::Unexpected => "unexpected",
            Refusal::Faulty(kind) => fault_words(*kind),
        }
    }
}

/// Why a text was not read.
#[derive(Clone, Copy, Debug, PartialEq, Eq)]
pub enum ReadError {
    /// The text is no accepted program, by what stands at this place of it (in bytes, from 0).
    Refused { at: u32, why: Refusal },
    /// Memory was wanted and not there.
    NoMemory,
}

impl ReadError {
    ghost use Rattle.std.specs.Prelude.{◌≡◌};
    ghost use Rattle.csl_reader.specs.declared.refusal.ReadError.TheVariants.{Refused};
    ghost use Rattle.csl_reader.specs.Errors.{of_lexer, of_parser, of_check};

    fn refused(at: u32, why: Refusal) -> ReadError
        ensures { result ≡ Refused at why }
    {
        ReadError::Refused { at, why }
    }

    /// The same of a fault of tokens.
    pub(crate) fn of_lexer(fault: LexError) -> ReadError
        ensures { result ≡ of_lexer fault }
    {
        match fault {
            LexError::BadByte(at) => ReadError::refused(at, Refusal::BadByte),
            LexError::LongName(at) => ReadError::refused(at, Refusal::LongName),
            LexError::LongNumber(at) => ReadError::refused(at, Refusal::LongNumber),
            LexError::OpenComment(at) => ReadError::refused(at, Refusal::OpenComment),
            LexError::OpenText(at) => ReadError::refused(at, Refusal::OpenText),
            LexError::NoMemory => ReadError::NoMemory,
        }
    }

    /// The same of a fault of levels or grammar.
    pub(crate) fn of_parser(fault: ParseError) -> ReadError
        ensures { result ≡ of_parser fault }
    {
        match fault {
            ParseError::TooDeep(at) => ReadError::refused(at, Refusal::TooDeep),
            ParseError::Unexpected(at) => ReadError::refused(at, Refusal::Unexpected),
            ParseError::NoMemory => ReadError::NoMemory,
        }
    }

    /// The same of a fault of a program.
    pub(crate) fn of_check(fault: CheckError) -> ReadError
        ensures { result ≡ of_check fault }
    {
        match fault {
            CheckError::Refused { at, kind } => ReadError::refused(at, Refusal::Faulty(kind)),
            CheckError::NoMemory => ReadError::NoMemory,
        }
    }
}
