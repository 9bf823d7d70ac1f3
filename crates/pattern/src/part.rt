// A pattern's parts: its elements and the marks of its groups.
ghost use Rattle.std.specs.Prelude.{◌≡◌, ◌≤◌, ◌<◌, length};
ghost use Rattle.pattern.specs.Places.{star_of, StarAt, PartAt};

use crate::element::Simple;
use crate::token::{Lexeme, Token, token_at};

// What stands at a place of a pattern, and where the next part starts.
#[derive(Clone, Copy)]
pub enum Found {
    One(Simple, usize),
    Open(usize),
    Bar(usize),
    Close(usize),
}

// The part of a `*` before the token t, which starts at `at`; the next one starts at `next`.
fn star_part(t: Token, at: usize, next: usize) -> Found
    ensures { result ≡ star_of t at next }
{
    match t {
        Token::Byte(c) => Found::One(Simple::Upto(c), next),
        Token::Any => Found::One(Simple::Any, next),
        Token::Bar | Token::Close | Token::Open | Token::Star | Token::Backslash => {
            Found::One(Simple::Rest, at)
        }
    }
}

// The part of a `*` before what starts at `at`.
fn star_at(pattern: &[u8], at: usize) -> Found
    requires { at ≤ length pattern.now }
    ensures { StarAt pattern.now at result }
{
    if at == pattern.len() {
        return Found::One(Simple::Rest, at);
    }
    let Lexeme { token, next } = token_at(pattern, at);
    star_part(token, at, next)
}

// The part that starts at `at`.
#[tactic(auto, unfolding(crate::specs::Parts::parts, crate::specs::Tree::tree))]
pub fn part_at(pattern: &[u8], at: usize) -> Found
    requires { at < length pattern.now }
    ensures { PartAt pattern.now at result }
{
    let Lexeme { token, next } = token_at(pattern, at);
    match token {
        Token::Byte(c) => Found::One(Simple::Byte(c), next),
        Token::Any => Found::One(Simple::Any, next),
        Token::Open => Found::Open(next),
        Token::Bar => Found::Bar(next),
        Token::Close => Found::Close(next),
        Token::Backslash => Found::One(Simple::Byte(b'\\'), next),
        Token::Star => star_at(pattern, next),
    }
}
