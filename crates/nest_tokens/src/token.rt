//! Tokens: what they are and how the signs and the keywords are spelled.

ghost use Rattle.std.specs.Prelude.{◌≡◌, ◌≤◌, length};
ghost use Rattle.std.specs.List.{prefix_len};
ghost use Rattle.nest_tokens.specs.Tokens.{spelling, is_mark, keyword_of, sign_at};
ghost use Rattle.nest_tokens.specs.Spellings.{is_written, name_text};

/// The most bytes of a name.
pub const LONGEST_NAME: usize = 32;

/// A name, with zeros behind it. Two names are equal exactly where their bytes are.
#[derive(Clone, Copy, Debug, PartialEq, Eq)]
pub struct Name {
    pub bytes: [u8; 32],
}

/// A sign or a keyword.
#[derive(Clone, Copy, Debug, PartialEq, Eq)]
pub enum Mark {
    OpenBrace,
    CloseBrace,
    Open,
    Close,
    OpenBracket,
    CloseBracket,
    Assign,
    Equal,
    NotEqual,
    Less,
    AtMost,
    Greater,
    AtLeast,
    Plus,
    Minus,
    Times,
    Divide,
    Remainder,
    Colon,
    Comma,
    Semicolon,
    Nest,
    Scalar,
    Memory,
    Data,
    Ramp,
    Candidate,
    For,
    Below,
    Step,
    While,
    Let,
    If,
    Else,
}

/// What is wrong with a token that is refused wherever it stands: a byte that begins no token, a number
/// past 9223372036854775807, or a name of more than 32 bytes.
#[derive(Clone, Copy, Debug, PartialEq, Eq)]
pub enum BadToken {
    Byte,
    Number,
    Name,
}

/// A token of a text. A number is at most 9223372036854775807. The end of the text is a token too.
#[derive(Clone, Copy, Debug, PartialEq, Eq)]
pub enum Token {
    Name(Name),
    Number(u64),
    Plain(Mark),
    Bad(BadToken),
    End,
}

/// A token and the offset of its first byte; that of the end is the length of the text.
#[derive(Clone, Copy, Debug, PartialEq, Eq)]
pub struct Spot {
    pub at: usize,
    pub token: Token,
}

/// The signs. A longer one stands before those that it begins with.
const SIGNS: [Mark; 21] = [
    Mark::Equal,
    Mark::NotEqual,
    Mark::AtMost,
    Mark::AtLeast,
    Mark::OpenBrace,
    Mark::CloseBrace,
    Mark::Open,
    Mark::Close,
    Mark::OpenBracket,
    Mark::CloseBracket,
    Mark::Assign,
    Mark::Less,
    Mark::Greater,
    Mark::Plus,
    Mark::Minus,
    Mark::Times,
    Mark::Divide,
    Mark::Remainder,
    Mark::Colon,
    Mark::Comma,
    Mark::Semicolon,
];

/// The keywords.
const KEYWORDS: [Mark; 13] = [
    Mark::Nest,
    Mark::Scalar,
    Mark::Memory,
    Mark::Data,
    Mark::Ramp,
    Mark::Candidate,
    Mark::For,
    Mark::Below,
    Mark::Step,
    Mark::While,
    Mark::Let,
    Mark::If,
    Mark::Else,
];

/// Whether a byte of a name is none of the zeros behind it.
fn is_written(byte: u8) -> bool
    ensures { result ≡ is_written byte }
{
    byte != 0
}

/// How many bytes stand before the zeros.
fn written_len(bytes: &[u8]) -> usize
    ensures value { result ≡ prefix_len is_written bytes.now }
    ensures within { result ≤ length bytes.now }
{
    bytes.iter().take_while(|byte| is_written(**byte)).count()
}

impl Name {
    /// The bytes of the name, without the zeros behind them.
    #[tactic(auto, unfolding(crate::specs::Spellings::name_text))]
    pub fn text(&self) -> &[u8]
        ensures { result.now ≡ name_text self.now }
    {
        let len = written_len(&self.bytes);
        &self.bytes[..len]
    }
}

impl Mark {
    /// The bytes of the sign or word.
    #[tactic(auto, unfolding(crate::specs::Tokens::spelling))]
    pub fn spelling(self) -> &'static [u8]
        ensures { result.now ≡ spelling self }
    {
        match self {
            Mark::OpenBrace => b"{",
            Mark::CloseBrace => b"}",
            Mark::Open => b"(",
            Mark::Close => b")",
            Mark::OpenBracket => b"[",
            Mark::CloseBracket => b"]",
            Mark::Assign => b"=",
            Mark::Equal => b"==",
            Mark::NotEqual => b"!=",
            Mark::Less => b"<",
            Mark::AtMost => b"<=",
            Mark::Greater => b">",
            Mark::AtLeast => b">=",
            Mark::Plus => b"+",
            Mark::Minus => b"-",
            Mark::Times => b"*",
            Mark::Divide => b"/",
            Mark::Remainder => b"%",
            Mark::Colon => b":",
            Mark::Comma => b",",
            Mark::Semicolon => b";",
            Mark::Nest => b"nest",
            Mark::Scalar => b"scalar",
            Mark::Memory => b"memory",
            Mark::Data => b"data",
            Mark::Ramp => b"ramp",
            Mark::Candidate => b"candidate",
            Mark::For => b"for",
            Mark::Below => b"below",
            Mark::Step => b"step",
            Mark::While => b"while",
            Mark::Let => b"let",
            Mark::If => b"if",
            Mark::Else => b"else",
        }
    }

    /// The keyword that is spelled so.
    #[tactic(auto, unfolding(crate::specs::Tokens::keyword_of))]
    pub fn keyword(text: &[u8]) -> Option<Mark>
        ensures { result ≡ keyword_of text.now }
    {
        KEYWORDS
            .iter()
            .copied()
            .find(|keyword| keyword.spelling() == text)
    }

    /// The longest sign that this text begins with.
    #[tactic(auto, unfolding(crate::specs::Tokens::sign_at))]
    pub fn sign(text: &[u8]) -> Option<Mark>
        ensures { result ≡ sign_at text.now }
    {
        SIGNS
            .iter()
            .copied()
            .find(|sign| text.starts_with(sign.spelling()))
    }
}

impl Token {
    /// Whether this is that sign or word.
    #[tactic(auto, unfolding(crate::specs::Tokens::is_mark))]
    pub fn is(self, mark: Mark) -> bool
        ensures { result ≡ is_mark mark self }
    {
        match self {
            Token::Plain(other) => mark == other,
            _ => false,
        }
    }
}
