//! One request, made of words.

ghost use Rattle.std.specs.Prelude.{◌≡◌, ◌⊎◌, ◌&&◌, false, IfOk, IfErr, OnOk, IsTrue, string_bytes};
ghost use Rattle.std.specs.List.{list_all};
ghost use Rattle.permit_base.specs.Texts.{is_token};
ghost use Rattle.permit_subcommands.specs.Failures.{plain};
ghost use Rattle.permit_subcommands.specs.Requests.{body_of, is_printed, is_word, request_text, IsRefusedFor};
ghost use Rattle.permit_import.specs.declared.refused.RefusalWord.TheVariants.{Caller, Store};

use crate::failure::Failure;
use crate::refused::RefusalWord;
use permit_args::plan::ActWords;
use permit_base::values::Token;
use std::alloc::{AllocError, Global};

/// Whether each byte is printed and no space.
fn are_printed(bytes: &[u8]) -> bool
    ensures { result ≡ list_all is_printed bytes.now }
{
    bytes.iter().all(|b| *b >= 0x21 && *b <= 0x7E)
}

/// Whether a word can be a method or a path: it has a byte, and each is printed and no space.
pub(crate) fn is_word(word: &str) -> bool
    ensures { result ≡ is_word word.now }
{
    1 <= word.len() && are_printed(word.as_bytes())
}

/// The bytes of a request for this machine, with the token and the body.
fn request_text(
    alloc: Global,
    method: &str,
    path: &str,
    token: &str,
    body: &str,
) -> Result<String, AllocError>
    ensures { IfOk result (λ text. string_bytes text ≡ request_text method.now path.now token.now body.now) }
{
    let size = body.len();
    format!(in alloc;
        "{method} {path} HTTP/1.1\r\nHost: localhost\r\nAuthorization: Bearer {token}\r\nContent-Length: {size}\r\n\r\n{body}"
    )
}

/// The caller's token. One that has another form is refused as the caller, as an office refuses a token that nobody has.
pub fn caller(alloc: Global, token: &str) -> Result<Token, Failure>
    ensures token { IfOk result (λ t. (t ≡ token.now) × IsTrue (is_token token.now)) }
    ensures refused { IfErr result (λ why. (why ≡ plain Store) ⊎ ((why ≡ plain Caller) × (is_token token.now ≡ false))) }
{
    match Token::new(String::from_str(alloc, token)?) {
        Some(token) => Ok(token),
        None => Err(Failure::plain(RefusalWord::Caller)),
    }
}

/// The bytes of the request that the words make, with a token that is named apart from them. A method or path that is no word is
/// refused as syntax, a token that has another form as the caller.
pub fn request(alloc: Global, words: &ActWords<'_>, token: &str) -> Result<String, Failure>
    ensures text { IfOk result (λ text. string_bytes text ≡ request_text words.now.method.now words.now.path.now token.now (body_of words.now.body)) }
    ensures within { OnOk result (IsTrue (is_word words.now.method.now && is_word words.now.path.now && is_token token.now)) }
    ensures refused { IfErr result (IsRefusedFor words.now token.now) }
{
    if !is_word(words.method) || !is_word(words.path) {
        return Err(Failure::plain(RefusalWord::Syntax));
    }
    let token = caller(alloc, token)?;
    let body = words.body.unwrap_or("");
    Ok(request_text(alloc, words.method, words.path, token.as_str(), body)?)
}
