ghost use Rattle.std.specs.Prelude.{◌≡◌, ◌≤◌, length};
ghost use Rattle.js_grammar.specs.TokenClasses.{bytes_between, class_in, class_of_identifier, class_of_mark, class_of_piece, class_of_word};

use js_tokens::{Mark, Piece, Token, TokenKind, Word};

/// The class of a token: what of it the grammar tells apart.
#[derive(Clone, Copy)]
pub enum Class {
    /// The end of the text.
    End,
    /// `;`
    Semicolon,
    /// `,`
    Comma,
    /// `{`
    OpenBrace,
    /// `}`
    CloseBrace,
    /// A `(` that does not begin the head of an arrow function.
    OpenParen,
    /// A `(` that begins the head of an arrow function: its `)` is followed by `=>` on the same line.
    HeadParen,
    /// `)`
    CloseParen,
    /// `[`
    OpenBracket,
    /// `]`
    CloseBracket,
    /// `...`
    Ellipsis,
    /// `=`
    Equals,
    /// `+=`, `-=`, `*=`, `/=`, `%=`, `<<=`, `>>=`, `>>>=`, `&=`, `^=` or `|=`
    Compound,
    /// `=>`
    Arrow,
    /// `:`
    Colon,
    /// `?`
    Question,
    /// `.`
    Dot,
    /// `++`
    Increment,
    /// `--`
    Decrement,
    /// `||`
    LogicalOr,
    /// `&&`
    LogicalAnd,
    /// `|`
    BitwiseOr,
    /// `^`
    BitwiseXor,
    /// `&`
    BitwiseAnd,
    /// `==`, `!=`, `===` or `!==`
    Equality,
    /// `<`, `>`, `<=` or `>=`
    Relational,
    /// `<<`, `>>` or `>>>`
    Shift,
    /// `+` or `-`, with one operand or between two
    Sign,
    /// `*`, `/` or `%`
    Multiplicative,
    /// `~` or `!`
    Complement,
    /// An identifier other than `of`, `get` and `set`.
    Identifier,
    /// The identifier `of`.
    Of,
    /// The identifier `get`.
    Get,
    /// The identifier `set`.
    Set,
    /// A number.
    Number,
    /// A string.
    Text,
    /// A template without substitutions.
    TemplateWhole,
    /// A template up to its first `${`.
    TemplateHead,
    /// A template from a `}` to the next `${`.
    TemplateMiddle,
    /// A template from its last `}` to its end.
    TemplateTail,
    /// `instanceof`
    Instanceof,
    /// `in`
    In,
    /// `typeof`, `void` or `delete`
    UnaryWord,
    /// `this`
    This,
    /// `null`
    Null,
    /// `true`
    True,
    /// `false`
    False,
    /// `new`
    New,
    /// `function`
    Function,
    /// `let`
    Let,
    /// `const`
    Const,
    /// `var`
    Var,
    /// `debugger`
    Debugger,
    /// `if`
    If,
    /// `else`
    Else,
    /// `for`
    For,
    /// `while`
    While,
    /// `do`
    Do,
    /// `continue`
    Continue,
    /// `break`
    Break,
    /// `return`
    Return,
    /// `throw`
    Throw,
    /// `switch`
    Switch,
    /// `case`
    Case,
    /// `default`
    Default,
    /// `try`
    Try,
    /// `catch`
    Catch,
    /// `finally`
    Finally,
    /// A reserved word that begins or joins nothing here: `class`, `enum`, `export`, `extends`, `import`, `super`, `with` or `yield`.
    OtherWord,
}

/// The class of a token of the text.
pub fn class_of(text: &str, token: &Token) -> Class
    requires { token.now.from ≤ token.now.to × token.now.to ≤ length text.now }
    ensures { result ≡ class_in text.now token.now }
{
    match token.kind {
        TokenKind::Identifier => identifier_class(bytes_of(text, token.from, token.to)),
        TokenKind::Reserved(word) => word_class(word),
        TokenKind::Punctuator(mark) => mark_class(mark, token.head),
        TokenKind::Number(_) => Class::Number,
        TokenKind::Text => Class::Text,
        TokenKind::Template(piece) => piece_class(piece),
        TokenKind::End => Class::End,
    }
}

fn bytes_of(text: &str, from: u32, to: u32) -> &[u8]
    requires { from ≤ to × to ≤ length text.now }
    ensures { result.now ≡ bytes_between text.now from to }
{
    &text.as_bytes()[from as usize..to as usize]
}

fn identifier_class(name: &[u8]) -> Class
    ensures { result ≡ class_of_identifier name.now }
{
    if name == "of".as_bytes() {
        Class::Of
    } else if name == "get".as_bytes() {
        Class::Get
    } else if name == "set".as_bytes() {
        Class::Set
    } else {
        Class::Identifier
    }
}

fn word_class(word: Word) -> Class
    ensures { result ≡ class_of_word word }
{
    match word {
        Word::Break => Class::Break,
        Word::Case => Class::Case,
        Word::Catch => Class::Catch,
        Word::Class
        | Word::Enum
        | Word::Export
        | Word::Extends
        | Word::Import
        | Word::Super
        | Word::With
        | Word::Yield => Class::OtherWord,
        Word::Const => Class::Const,
        Word::Continue => Class::Continue,
        Word::Debugger => Class::Debugger,
        Word::Default => Class::Default,
        Word::Delete | Word::Typeof | Word::Void => Class::UnaryWord,
        Word::Do => Class::Do,
        Word::Else => Class::Else,
        Word::False => Class::False,
        Word::Finally => Class::Finally,
        Word::For => Class::For,
        Word::Function => Class::Function,
        Word::If => Class::If,
        Word::In => Class::In,
        Word::Instanceof => Class::Instanceof,
        Word::Let => Class::Let,
        Word::New => Class::New,
        Word::Null => Class::Null,
        Word::Return => Class::Return,
        Word::Switch => Class::Switch,
        Word::This => Class::This,
        Word::Throw => Class::Throw,
        Word::True => Class::True,
        Word::Try => Class::Try,
        Word::Var => Class::Var,
        Word::While => Class::While,
    }
}

fn mark_class(mark: Mark, head: bool) -> Class
    ensures { result ≡ class_of_mark mark head }
{
    match mark {
        Mark::OpenParen => if head {
            Class::HeadParen
        } else {
            Class::OpenParen
        },
        Mark::OpenBrace => Class::OpenBrace,
        Mark::CloseBrace => Class::CloseBrace,
        Mark::CloseParen => Class::CloseParen,
        Mark::OpenBracket => Class::OpenBracket,
        Mark::CloseBracket => Class::CloseBracket,
        Mark::Dot => Class::Dot,
        Mark::Ellipsis => Class::Ellipsis,
        Mark::Semicolon => Class::Semicolon,
        Mark::Comma => Class::Comma,
        Mark::Less | Mark::Greater | Mark::LessOrEqual | Mark::GreaterOrEqual => Class::Relational,
        Mark::Equal | Mark::NotEqual | Mark::StrictEqual | Mark::StrictNotEqual => Class::Equality,
        Mark::Plus | Mark::Minus => Class::Sign,
        Mark::Star | Mark::Slash | Mark::Percent => Class::Multiplicative,
        Mark::Increment => Class::Increment,
        Mark::Decrement => Class::Decrement,
        Mark::ShiftLeft | Mark::ShiftRight | Mark::ShiftRightUnsigned => Class::Shift,
        Mark::BitAnd => Class::BitwiseAnd,
        Mark::BitOr => Class::BitwiseOr,
        Mark::BitXor => Class::BitwiseXor,
        Mark::Bang | Mark::Tilde => Class::Complement,
        Mark::AndAnd => Class::LogicalAnd,
        Mark::OrOr => Class::LogicalOr,
        Mark::Question => Class::Question,
        Mark::Colon => Class::Colon,
        Mark::Assign => Class::Equals,
        Mark::PlusAssign
        | Mark::MinusAssign
        | Mark::StarAssign
        | Mark::SlashAssign
        | Mark::PercentAssign
        | Mark::ShiftLeftAssign
        | Mark::ShiftRightAssign
        | Mark::ShiftRightUnsignedAssign
        | Mark::BitAndAssign
        | Mark::BitOrAssign
        | Mark::BitXorAssign => Class::Compound,
        Mark::Arrow => Class::Arrow,
    }
}

fn piece_class(piece: Piece) -> Class
    ensures { result ≡ class_of_piece piece }
{
    match piece {
        Piece::Whole => Class::TemplateWhole,
        Piece::Head => Class::TemplateHead,
        Piece::Middle => Class::TemplateMiddle,
        Piece::Tail => Class::TemplateTail,
    }
}
