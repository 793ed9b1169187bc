//! The kinds of token, and a token with its place.

/// A keyword of C90 in the subset (ISO/IEC 9899:1990, 6.1.1), and `interrupt`, the HI-TECH PICC
/// compiler's specifier for the interrupt handler.
#[derive(Clone, Copy, PartialEq, Eq)]
pub enum Keyword {
    Auto,
    Break,
    Case,
    Char,
    Const,
    Continue,
    Default,
    Do,
    Else,
    Enum,
    For,
    If,
    Int,
    Interrupt,
    Long,
    Register,
    Return,
    Short,
    Signed,
    Sizeof,
    Static,
    Struct,
    Switch,
    Typedef,
    Unsigned,
    Void,
    Volatile,
    While,
}

/// An operator or a punctuator (ISO/IEC 9899:1990, 6.1.5 and 6.1.6), named by its spelling where
/// one spelling has several meanings. `Hash` begins a directive.
#[derive(Clone, Copy, PartialEq, Eq)]
pub enum Punct {
    /// `[`
    LeftBracket,
    /// `]`
    RightBracket,
    /// `(`
    LeftParenthesis,
    /// `)`
    RightParenthesis,
    /// `{`
    LeftBrace,
    /// `}`
    RightBrace,
    /// `.`
    Dot,
    /// `->`
    Arrow,
    /// `++`
    Increment,
    /// `--`
    Decrement,
    /// `&`
    Ampersand,
    /// `*`
    Star,
    /// `+`
    Plus,
    /// `-`
    Minus,
    /// `~`
    Tilde,
    /// `!`
    Not,
    /// `/`
    Slash,
    /// `%`
    Percent,
    /// `<<`
    ShiftLeft,
    /// `>>`
    ShiftRight,
    /// `<`
    Less,
    /// `>`
    Greater,
    /// `<=`
    LessEqual,
    /// `>=`
    GreaterEqual,
    /// `==`
    Equal,
    /// `!=`
    NotEqual,
    /// `^`
    Caret,
    /// `|`
    Bar,
    /// `&&`
    And,
    /// `||`
    Or,
    /// `?`
    Question,
    /// `:`
    Colon,
    /// `;`
    Semicolon,
    /// `=`
    Assign,
    /// `*=`
    StarAssign,
    /// `/=`
    SlashAssign,
    /// `%=`
    PercentAssign,
    /// `+=`
    PlusAssign,
    /// `-=`
    MinusAssign,
    /// `<<=`
    ShiftLeftAssign,
    /// `>>=`
    ShiftRightAssign,
    /// `&=`
    AmpersandAssign,
    /// `^=`
    CaretAssign,
    /// `|=`
    BarAssign,
    /// `,`
    Comma,
    /// `#`, which begins a directive
    Hash,
}

/// What a token is. A name's, keyword's or string's text is its span of the source.
#[derive(Clone, Copy, PartialEq, Eq)]
pub enum TokKind {
    /// An identifier that is no keyword.
    Name,
    /// An identifier that is marked as the name of a type. No text is cut into one: marking makes them of identifiers.
    TypeName,
    Keyword(Keyword),
    /// An integer constant (ISO/IEC 9899:1990, 6.1.3.2, with `0b` for base 2): its value, its base
    /// (2, 8, 10 or 16; `0` alone is octal), and which suffixes it has.
    Int {
        value: u32,
        base: u8,
        unsigned_suffix: bool,
        long_suffix: bool,
    },
    /// A character constant of one character, and its code, 0 to 255.
    Char {
        value: u8,
    },
    /// A string literal.
    Text,
    Punct(Punct),
}

/// A token of a text: the bytes from `start` to before `end`, on line `line`, counted from 1.
/// `first` says that no token stands before it on its line.
#[derive(Clone, Copy, PartialEq, Eq)]
pub struct Tok {
    pub kind: TokKind,
    pub start: u32,
    pub end: u32,
    pub line: u32,
    pub first: bool,
}

/// Why a text has no list of tokens.
#[derive(Clone, Copy, PartialEq, Eq, Debug)]
pub enum LexError {
    /// Memory ran out.
    NoMemory,
    /// No token stands at a place on this line, or a comment, character constant or string that
    /// begins on it isn't closed.
    Bad { line: u32 },
    /// An identifier on this line has more than 255 bytes.
    Identifier { line: u32 },
}
