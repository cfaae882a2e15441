//! The sixteen diagnostics with their texts, and what a parse refuses.

ghost use Rattle.std.specs.Prelude.{◌≡◌};
ghost use Rattle.grammar.specs.Faults.{lexical_error_code};
ghost use Rattle.grammar.specs.DiagnosticTexts.{text_of};

use crate::build::BuildFault;
use tokens::{DeviceFault, LexicalError};

/// What is wrong with a source.
#[derive(Clone, Copy, Debug, PartialEq, Eq)]
pub enum Code {
    /// A byte outside a comment that begins no token.
    BadCharacter,
    /// A comment that doesn't end.
    CommentNotClosed,
    /// A name of over 31 bytes.
    NameTooLong,
    /// A constant above 2147483647.
    ConstantTooLarge,
    /// A source of over 1,048,576 bytes.
    SourceTooLong,
    /// A token that doesn't fit.
    SyntaxError,
    /// A word that C reserves and this language refuses.
    ReservedWord,
    /// The first token of the 65th construct that is nested in one another.
    NestedTooDeeply,
    /// The name of the 65th external, or of a function's 65th variable.
    TooManyVariables,
    /// The name of the 65th function.
    TooManyFunctions,
    /// The name of a function that is defined already.
    FunctionDefinedTwice,
    /// The name of an intrinsic function, in a definition.
    IntrinsicRedefined,
    /// A name twice in a parameter list, or one declared before the body that is not in the list.
    BadParameterDeclaration,
    /// The closing brace of the function with which the code exceeds its limit.
    TooMuchCode,
    /// The first mention of a function that the file doesn't define.
    FunctionNotDefined,
    /// The end of a file without a function `main`.
    NoMainFunction,
}

impl Code {
    /// Returns the text of the diagnostic, as the program prints it after the file's name and the line.
    #[tactic(auto, unfolding(crate::specs::DiagnosticTexts::text_of))]
    pub fn text(self) -> &'static str
        ensures { result.now ≡ text_of self }
    {
        match self {
            Code::BadCharacter => "bad character",
            Code::CommentNotClosed => "comment not closed",
            Code::NameTooLong => "name too long",
            Code::ConstantTooLarge => "constant too large",
            Code::SourceTooLong => "source too long",
            Code::SyntaxError => "syntax error",
            Code::ReservedWord => "reserved word",
            Code::NestedTooDeeply => "nested too deeply",
            Code::TooManyVariables => "too many variables",
            Code::TooManyFunctions => "too many functions",
            Code::FunctionDefinedTwice => "function defined twice",
            Code::IntrinsicRedefined => "intrinsic redefined",
            Code::BadParameterDeclaration => "bad parameter declaration",
            Code::TooMuchCode => "too much code",
            Code::FunctionNotDefined => "function not defined",
            Code::NoMainFunction => "no main function",
        }
    }
}

/// Returns the code of a lexical error.
pub fn lexical_error_code(lexical_error: LexicalError) -> Code
    ensures { result ≡ lexical_error_code lexical_error }
{
    match lexical_error {
        LexicalError::BadCharacter => Code::BadCharacter,
        LexicalError::CommentNotClosed => Code::CommentNotClosed,
        LexicalError::NameTooLong => Code::NameTooLong,
        LexicalError::ConstantTooLarge => Code::ConstantTooLarge,
        LexicalError::SourceTooLong => Code::SourceTooLong,
    }
}

/// Why a parse returned no pools. The builder is given up then.
#[derive(Clone, Copy, Debug, PartialEq, Eq)]
pub enum ParseFault {
    /// The source has a fault, and this is its first.
    Source(Diagnostic),
    /// The device failed before the source's fault, or its end, was known.
    Device,
    /// The builder was refused memory.
    Memory,
}

/// A source's fault: what it is, and the line of its token, from 1.
#[derive(Clone, Copy, Debug, PartialEq, Eq)]
pub struct Diagnostic {
    /// The line of the fault's token.
    pub line: u32,
    /// What is wrong.
    pub code: Code,
}

impl From<DeviceFault> for ParseFault {
    ghost use Rattle.grammar.specs.declared.diagnostics.ParseFault.TheVariants.{Device};

    ghost from_gives = { λ _ e. e ≡ Device };

    fn from(_fault: DeviceFault) -> ParseFault {
        ParseFault::Device
    }
}

impl From<BuildFault> for ParseFault {
    ghost use Rattle.grammar.specs.declared.diagnostics.ParseFault.TheVariants.{Memory};

    ghost from_gives = { λ _ e. e ≡ Memory };

    /// Makes it a refusal of memory: `Full` is only answered at a function's end, and becomes a diagnostic there.
    fn from(_fault: BuildFault) -> ParseFault {
        ParseFault::Memory
    }
}
