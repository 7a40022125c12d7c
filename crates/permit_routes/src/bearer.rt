//! The token of a request.

ghost use Rattle.std.specs.Prelude.{◌≡◌, IfOk};
ghost use Rattle.permit_routes.specs.Bearer.{token_of};

use permit_base::values::Token;
use std::alloc::{AllocError, Global};

/// The token of a value of the field `Authorization`, or none where it has another form.
///
/// The form is the scheme `Bearer` in any case, one space and the token (RFC 9110, section 11.4). An `Err` says
/// that memory for the token ran out.
///
/// # Examples
///
/// ```
/// let token = read_token(alloc, b"Bearer abcdefghijklmnopqrstuvwxyz")?;
/// assert!(rt; token.is_some());
/// ```
pub fn read_token(alloc: Global, value: &[u8]) -> Result<Option<Token>, AllocError>
    ensures { IfOk result (λ token. token ≡ token_of value.now) }
{
    let Some((scheme, secret)) = value.split_at_checked(7) else {
        return Ok(None)
    };
    if !scheme.eq_ignore_ascii_case(b"Bearer ") {
        return Ok(None);
    }
    let Ok(secret) = str::from_utf8(secret) else {
        return Ok(None)
    };
    Ok(Token::new(String::from_str(alloc, secret)?))
}
