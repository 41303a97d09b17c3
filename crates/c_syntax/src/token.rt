//! Tokens: ISO 9899:1990 6.1.
use word_base::Text;

/// The keywords, each spelled as its name in lower case.
#[derive(Clone, Copy, Debug, PartialEq, Eq)]
pub enum Keyword {
    Auto,
    Break,
    Case,
    Char,
    Const,
    Continue,
    Default,
    Do,
    Double,
    Else,
    Enum,
    Extern,
    Float,
    For,
    Goto,
    If,
    Int,
    Long,
    Register,
    Return,
    Short,
    Signed,
    Sizeof,
    Static,
    Struct,
    Switch,
    Typedef,
    Union,
    Unsigned,
    Void,
    Volatile,
    While,
}

/// The marks: operators and punctuators.
#[derive(Clone, Copy, Debug, PartialEq, Eq)]
pub enum Punct {
    /// `[`
    OpenBracket,
    /// `]`
    CloseBracket,
    /// `(`
    OpenParen,
    /// `)`
    CloseParen,
    /// `{`
    OpenBrace,
    /// `}`
    CloseBrace,
    /// `,`
    Comma,
    /// `;`
    Semicolon,
    /// `:`
    Colon,
    /// `?`
    Question,
    /// `~`
    Tilde,
    /// `.`
    Dot,
    /// `->`
    Arrow,
    /// `...`
    Ellipsis,
    /// `+`
    Plus,
    /// `-`
    Minus,
    /// `*`
    Star,
    /// `/`
    Slash,
    /// `%`
    Percent,
    /// `&`
    Ampersand,
    /// `|`
    Bar,
    /// `^`
    Caret,
    /// `!`
    Exclamation,
    /// `<`
    Less,
    /// `>`
    Greater,
    /// `=`
    Assign,
    /// `++`
    PlusPlus,
    /// `--`
    MinusMinus,
    /// `<<`
    ShiftLeft,
    /// `>>`
    ShiftRight,
    /// `<=`
    LessEqual,
    /// `>=`
    GreaterEqual,
    /// `==`
    EqualEqual,
    /// `!=`
    NotEqual,
    /// `&&`
    AndAnd,
    /// `||`
    OrOr,
    /// `+=`
    PlusAssign,
    /// `-=`
    MinusAssign,
    /// `*=`
    StarAssign,
    /// `/=`
    SlashAssign,
    /// `%=`
    PercentAssign,
    /// `&=`
    AmpersandAssign,
    /// `|=`
    BarAssign,
    /// `^=`
    CaretAssign,
    /// `<<=`
    ShiftLeftAssign,
    /// `>>=`
    ShiftRightAssign,
}

/// What a token is, and its value.
#[derive(Drop)]
pub enum TokenKind {
    Word(Keyword),
    /// A name that is no keyword, of 1 to 127 characters.
    Name(Text),
    /// An integer constant.
    Number {
        /// Its value, or 4,294,967,295 where that is greater.
        value: u32,
        /// Whether it ends in `u` or `U`.
        unsigned_mark: bool,
        /// Whether it is a decimal constant, which begins with 1 to 9. So `0` is octal.
        decimal: bool,
    },
    /// A character constant: the ASCII code of its character, or the number that the digits of its escape write.
    Char(u16),
    Mark(Punct),
}

/// A token of a source.
#[derive(Drop)]
pub struct Token {
    pub kind: TokenKind,
    /// Where its spelling begins, in bytes from the start of the source.
    pub at: u32,
    /// The length of its spelling, in bytes.
    pub len: u32,
}
