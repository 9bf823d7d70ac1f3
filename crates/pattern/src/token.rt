// A pattern's tokens: one for each byte, and one for `\` with the byte after it.
ghost use Rattle.std.specs.Prelude.{◌≡◌, ◌<◌, length};
ghost use Rattle.pattern.specs.Tokens;
ghost use Rattle.pattern.specs.Checking.{TokenAt};

// `(`, `|`, `)`, `*`, `?`, an ordinary or escaped byte, and a `\` at the end of the pattern.
#[derive(Clone, Copy)]
pub enum Token {
    Open,
    Bar,
    Close,
    Star,
    Any,
    Byte(u8),
    Backslash,
}

// A token, and where the next one starts.
#[derive(Clone, Copy)]
pub struct Lexeme {
    pub token: Token,
    pub next: usize,
}

// The token of a byte that no `\` stands before. A `\` counts as one that nothing follows.
#[tactic(auto, unfolding(crate::specs::Tokens::single))]
fn single(c: u8) -> Token
    ensures { result ≡ Tokens.single c }
{
    match c {
        b'(' => Token::Open,
        b'|' => Token::Bar,
        b')' => Token::Close,
        b'*' => Token::Star,
        b'?' => Token::Any,
        b'\\' => Token::Backslash,
        _ => Token::Byte(c),
    }
}

// The token that starts at `at`.
pub fn token_at(pattern: &[u8], at: usize) -> Lexeme
    requires { at < length pattern.now }
    ensures { TokenAt pattern.now at result }
{
    if pattern[at] == b'\\' && at + 1 < pattern.len() {
        return Lexeme {
            token: Token::Byte(pattern[at + 1]),
            next: at + 2,
        };
    }
    Lexeme {
        token: single(pattern[at]),
        next: at + 1,
    }
}
