//! Tokens, what they are, and why a text is not cut into tokens.

/// A word that is reserved everywhere (ECMA-262, 6th edition, 11.6.2; `let` and `yield` among them).
#[derive(Clone, Copy)]
pub enum Word {
    Break,
    Case,
    Catch,
    Class,
    Const,
    Continue,
    Debugger,
    Default,
    Delete,
    Do,
    Else,
    Enum,
    Export,
    Extends,
    False,
    Finally,
    For,
    Function,
    If,
    Import,
    In,
    Instanceof,
    Let,
    New,
    Null,
    Return,
    Super,
    Switch,
    This,
    Throw,
    True,
    Try,
    Typeof,
    Var,
    Void,
    While,
    With,
    Yield,
}

/// A punctuator (ECMA-262, 6th edition, 11.7), named by what it is written for.
#[derive(Clone, Copy)]
pub enum Mark {
    /// `{`
    OpenBrace,
    /// `}`
    CloseBrace,
    /// `(`
    OpenParen,
    /// `)`
    CloseParen,
    /// `[`
    OpenBracket,
    /// `]`
    CloseBracket,
    /// `.`
    Dot,
    /// `...`
    Ellipsis,
    /// `;`
    Semicolon,
    /// `,`
    Comma,
    /// `<`
    Less,
    /// `>`
    Greater,
    /// `<=`
    LessOrEqual,
    /// `>=`
    GreaterOrEqual,
    /// `==`
    Equal,
    /// `!=`
    NotEqual,
    /// `===`
    StrictEqual,
    /// `!==`
    StrictNotEqual,
    /// `+`
    Plus,
    /// `-`
    Minus,
    /// `*`
    Star,
    /// `/`
    Slash,
    /// `%`
    Percent,
    /// `++`
    Increment,
    /// `--`
    Decrement,
    /// `<<`
    ShiftLeft,
    /// `>>`
    ShiftRight,
    /// `>>>`
    ShiftRightUnsigned,
    /// `&`
    BitAnd,
    /// `|`
    BitOr,
    /// `^`
    BitXor,
    /// `!`
    Bang,
    /// `~`
    Tilde,
    /// `&&`
    AndAnd,
    /// `||`
    OrOr,
    /// `?`
    Question,
    /// `:`
    Colon,
    /// `=`
    Assign,
    /// `+=`
    PlusAssign,
    /// `-=`
    MinusAssign,
    /// `*=`
    StarAssign,
    /// `/=`
    SlashAssign,
    /// `%=`
    PercentAssign,
    /// `<<=`
    ShiftLeftAssign,
    /// `>>=`
    ShiftRightAssign,
    /// `>>>=`
    ShiftRightUnsignedAssign,
    /// `&=`
    BitAndAssign,
    /// `|=`
    BitOrAssign,
    /// `^=`
    BitXorAssign,
    /// `=>`
    Arrow,
}

/// Which part of a template a token is (ECMA-262, 6th edition, 11.8.6).
#[derive(Clone, Copy)]
pub enum Piece {
    /// From a backtick to a backtick.
    Whole,
    /// From a backtick to `${`.
    Head,
    /// From the `}` that closes a `${` to the next `${`.
    Middle,
    /// From the `}` that closes a `${` to a backtick.
    Tail,
}

/// What a token is.
#[derive(Clone, Copy)]
pub enum TokenKind {
    /// An identifier that is not reserved.
    Identifier,
    /// A reserved word.
    Reserved(Word),
    /// A punctuator.
    Punctuator(Mark),
    /// A number, with its value, which is below 2^53.
    Number(u64),
    /// A string.
    Text,
    /// A piece of a template.
    Template(Piece),
    /// The end of the text.
    End,
}

/// A token, by where it stands in its text: from the byte `from` up to the byte `to`.
#[derive(Clone, Copy)]
pub struct Token {
    pub kind: TokenKind,
    /// The place of the first byte, counted from 0.
    pub from: u32,
    /// The place behind the last byte.
    pub to: u32,
    /// Whether a line terminator stands between the token before this one, or the start of the text, and this one.
    pub newline_before: bool,
    /// Whether this is a `(` that a `)` closes which is followed by `=>` on the same line.
    pub head: bool,
}

/// Why a text is not cut into tokens. Each place is a byte of the text, counted from 0.
#[derive(Clone, Copy, Debug, PartialEq, Eq)]
pub enum TokenFault {
    /// Memory has run out.
    Memory,
    /// A character that begins no token.
    BadChar { at: u32 },
    /// A string meets a line terminator or the end: its opening quote.
    EndedString { at: u32 },
    /// A piece of a template meets the end: its first character.
    EndedTemplate { at: u32 },
    /// A `/*` comment meets the end: its `/*`.
    EndedComment { at: u32 },
    /// A `\` begins no escape: that `\`.
    BadEscape { at: u32 },
    /// A `\u` escape in a string stands for half of a surrogate pair, and the other half is missing: its `\`.
    LoneSurrogate { at: u32 },
    /// A number is not spelled as one, or directly followed by what may not follow one: its first character.
    NumberForm { at: u32 },
    /// A number is 2^53 or more: its first character.
    NumberTooBig { at: u32 },
    /// A `\` outside of strings, templates and comments: that `\`.
    EscapedName { at: u32 },
}
