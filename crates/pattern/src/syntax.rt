// The syntax check.
ghost use Rattle.std.specs.Prelude.{◌≡◌, ◌≤◌, length};
ghost use Rattle.pattern.specs.Syntax.{may_follow_star, star_fits};
ghost use Rattle.pattern.specs.Checking.{tokens_at, CheckedAt};

use crate::token::{Lexeme, Token, token_at};

// Whether the token t may stand after a `*`.
fn may_follow_star(t: Token) -> bool
    ensures { result ≡ may_follow_star t }
{
    !matches!(t, Token::Open | Token::Star)
}

// Whether a `*` may stand before what starts at `at`.
#[tactic(auto, unfolding(crate::specs::Syntax::star_fits))]
fn star_fits(pattern: &[u8], at: usize) -> bool
    ensures { result ≡ star_fits (tokens_at pattern.now at) }
{
    at >= pattern.len() || may_follow_star(token_at(pattern, at).token)
}

// Checks from `at` to past the `)` of the group that `at` is in or, outside every group, to the
// pattern's end, and gives that place, or None where the pattern is invalid. `left` more groups may
// open in it: 4 outside every group, and one less in each.
#[tactic(auto, unfolding(crate::specs::Syntax::fits))]
pub fn check(pattern: &[u8], at: usize, left: usize) -> Option<usize>
    requires { (at ≤ length pattern.now) × (left ≤ 4) }
    ensures { CheckedAt pattern.now at left result }
{
    let mut i = at;
    // Kept: how far a token or a group goes is known once it is read; no range goes by such steps.
    while i < pattern.len() {
        let Lexeme { token, next } = token_at(pattern, i);
        match token {
            Token::Byte(_) | Token::Any => i = next,
            Token::Star if star_fits(pattern, next) => i = next,
            Token::Open if 0 < left => i = check(pattern, next, left - 1)?,
            Token::Bar if left < 4 => i = next,
            Token::Close if left < 4 => return Some(next),
            _ => return None,
        }
    }
    (left == 4).then_some(i)
}
