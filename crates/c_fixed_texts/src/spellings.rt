//! The spellings of keywords and marks: ISO 9899:1990 6.1.1, 6.1.5 and 6.1.6.
ghost use Rattle.std.specs.Prelude.{◌≡◌};
ghost use Rattle.c_syntax.specs.FixedTexts as texts;

use c_syntax::{Keyword, Punct};

/// The spelling of a keyword.
pub fn keyword_text(keyword: Keyword) -> &'static str
    ensures { result.now ≡ texts.keyword_text keyword }
{
    match keyword {
        Keyword::Auto => "auto",
        Keyword::Break => "break",
        Keyword::Case => "case",
        Keyword::Char => "char",
        Keyword::Const => "const",
        Keyword::Continue => "continue",
        Keyword::Default => "default",
        Keyword::Do => "do",
        Keyword::Double => "double",
        Keyword::Else => "else",
        Keyword::Enum => "enum",
        Keyword::Extern => "extern",
        Keyword::Float => "float",
        Keyword::For => "for",
        Keyword::Goto => "goto",
        Keyword::If => "if",
        Keyword::Int => "int",
        Keyword::Long => "long",
        Keyword::Register => "register",
        Keyword::Return => "return",
        Keyword::Short => "short",
        Keyword::Signed => "signed",
        Keyword::Sizeof => "sizeof",
        Keyword::Static => "static",
        Keyword::Struct => "struct",
        Keyword::Switch => "switch",
        Keyword::Typedef => "typedef",
        Keyword::Union => "union",
        Keyword::Unsigned => "unsigned",
        Keyword::Void => "void",
        Keyword::Volatile => "volatile",
        Keyword::While => "while",
    }
}

/// The spelling of a mark.
pub fn mark_text(mark: Punct) -> &'static str
    ensures { result.now ≡ texts.mark_text mark }
{
    match mark {
        Punct::OpenBracket => "[",
        Punct::CloseBracket => "]",
        Punct::OpenParen => "(",
        Punct::CloseParen => ")",
        Punct::OpenBrace => "{",
        Punct::CloseBrace => "}",
        Punct::Comma => ",",
        Punct::Semicolon => ";",
        Punct::Colon => ":",
        Punct::Question => "?",
        Punct::Tilde => "~",
        Punct::Dot => ".",
        Punct::Arrow => "->",
        Punct::Ellipsis => "...",
        Punct::Plus => "+",
        Punct::Minus => "-",
        Punct::Star => "*",
        Punct::Slash => "/",
        Punct::Percent => "%",
        Punct::Ampersand => "&",
        Punct::Bar => "|",
        Punct::Caret => "^",
        Punct::Exclamation => "!",
        Punct::Less => "<",
        Punct::Greater => ">",
        Punct::Assign => "=",
        Punct::PlusPlus => "++",
        Punct::MinusMinus => "--",
        Punct::ShiftLeft => "<<",
        Punct::ShiftRight => ">>",
        Punct::LessEqual => "<=",
        Punct::GreaterEqual => ">=",
        Punct::EqualEqual => "==",
        Punct::NotEqual => "!=",
        Punct::AndAnd => "&&",
        Punct::OrOr => "||",
        Punct::PlusAssign => "+=",
        Punct::MinusAssign => "-=",
        Punct::StarAssign => "*=",
        Punct::SlashAssign => "/=",
        Punct::PercentAssign => "%=",
        Punct::AmpersandAssign => "&=",
        Punct::BarAssign => "|=",
        Punct::CaretAssign => "^=",
        Punct::ShiftLeftAssign => "<<=",
        Punct::ShiftRightAssign => ">>=",
    }
}
