//! Tokens: what stands between the spaces of a line.
ghost use Rattle.std.specs.Prelude.{ℕ, [], ◌∷◌, ◌≡◌, ◌<◌, ◌≢◌, IsTrue, length, MatchOption, IfSome, IfNone, decimal};
ghost use Rattle.std.specs.List.{AllByRecursion, list_all};
ghost use Rattle.ide_text.specs.Grammar.{HasNameBytes, IsNumber, begins_name, continues_name, reserved_words};
ghost use Rattle.ide_text.specs.Token.{IsToken, token_text};

use crate::name::Name;

/// A token: a reserved word, a sign, a name or a number.
#[derive(Drop)]
pub(crate) enum Token {
    Global,
    Proc,
    Var,
    End,
    Skip,
    At,
    Goto,
    Branch,
    Call,
    Return,
    Mix,
    /// `=`
    Equals,
    /// `+`
    Plus,
    /// `-`
    Minus,
    /// `?`
    Question,
    /// `|`
    Bar,
    Name(Name),
    Number(u64),
}

impl Token {
    /// The token that these bytes spell, if they spell one.
    pub(crate) fn of(word: &[u8]) -> Option<Token>
        ensures found { IfSome result (λ token. IsToken token × (token_text token ≡ word.now)) }
        ensures none { IfNone result ((token : Token) → IsToken token → token_text token ≢ word.now) }
    {
        match reserved(word) {
            Some(token) => Some(token),
            None => unreserved(word),
        }
    }
}

/// The reserved word of these bytes, if they are one.
fn reserved(word: &[u8]) -> Option<Token>
    ensures found { IfSome result (λ token. IsToken token × (token_text token ≡ word.now)) }
    ensures none { IfNone result (AllByRecursion (λ text. word.now ≢ text) reserved_words) }
{
    match word {
        b"global" => Some(Token::Global),
        b"proc" => Some(Token::Proc),
        b"var" => Some(Token::Var),
        b"end" => Some(Token::End),
        b"skip" => Some(Token::Skip),
        b"at" => Some(Token::At),
        b"goto" => Some(Token::Goto),
        b"branch" => Some(Token::Branch),
        b"call" => Some(Token::Call),
        b"return" => Some(Token::Return),
        b"mix" => Some(Token::Mix),
        _ => None,
    }
}

/// The sign of this byte, if it is one.
fn sign(byte: u8) -> Option<Token>
    ensures found { IfSome result (λ token. IsToken token × (token_text token ≡ byte ∷ [])) }
    ensures none { IfNone result ((byte ≢ 61) × (byte ≢ 43) × (byte ≢ 45) × (byte ≢ 63) × (byte ≢ 124)) }
{
    match byte {
        b'=' => Some(Token::Equals),
        b'+' => Some(Token::Plus),
        b'-' => Some(Token::Minus),
        b'?' => Some(Token::Question),
        b'|' => Some(Token::Bar),
        _ => None,
    }
}

/// The sign, the name or the number that these bytes, no reserved word, spell. Their first byte
/// tells which of them they can be.
fn unreserved(word: &[u8]) -> Option<Token>
    requires { AllByRecursion (λ text. word.now ≢ text) reserved_words }
    ensures found { IfSome result (λ token. IsToken token × (token_text token ≡ word.now)) }
    ensures none { IfNone result ((token : Token) → IsToken token → token_text token ≢ word.now) }
{
    let (first, _) = word.split_first()?;
    if first.is_ascii_digit() {
        Some(Token::Number(number(word)?))
    } else if begins_name(*first) {
        Some(Token::Name(name(word)?))
    } else if word.len() == 1 {
        sign(*first)
    } else {
        None
    }
}

/// The name of these bytes, unless they are too many, or one stands there that no name has.
fn name(word: &[u8]) -> Option<Name>
    ensures { MatchOption result (¬ (HasNameBytes word.now)) (λ name. (name ≡ word.now) × HasNameBytes word.now) }
{
    if word.len() > Name::MAX {
        return None;
    }
    let (first, rest) = word.split_first()?;
    if !begins_name(*first) || !continue_name(rest) {
        return None;
    }
    Some(Name::of(word))
}

/// Whether a name may begin with this byte.
fn begins_name(byte: u8) -> bool
    ensures { result ≡ begins_name byte }
{
    byte.is_ascii_alphabetic() || byte == b'_'
}

/// Whether these bytes may stand in a name after the first.
fn continue_name(bytes: &[u8]) -> bool
    ensures { result ≡ list_all continues_name bytes.now }
{
    bytes
        .iter()
        .all(|byte| byte.is_ascii_alphanumeric() || *byte == b'_')
}

/// The decimal number that these bytes spell, if it has no zero too many in front and is below
/// 2^64.
fn number(word: &[u8]) -> Option<u64>
    requires { 0 < length word.now }
    ensures found { IfSome result (λ n. IsNumber n × (decimal n ≡ word.now)) }
    ensures none { IfNone result ((n : ℕ) → IsNumber n → decimal n ≢ word.now) }
{
    if word.len() > 1 && word[0] == b'0' {
        return None;
    }
    let mut value: u64 = 0;
    for byte in word {
        if !byte.is_ascii_digit() {
            return None;
        }
        value = value.checked_mul(10)?.checked_add(u64::from(*byte - b'0'))?;
    }
    Some(value)
}
