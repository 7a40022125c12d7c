//! What is taken in place of words that are refused, and why a file can't be read, each in a line without its end.

ghost use Rattle.std.specs.Prelude.{◌≡◌};
ghost use Rattle.permit_subcommands.specs.Explaining.{act_reason, day_reason, founder_reason, line_reason, listen_reason, method_reason, name_reason, path_reason, request_reason, since_reason, token_reason, unread_reason, zone_reason};

use crate::failure::LineReason;
use crate::request::is_word;
use permit_args::plan::{ActWords, TokenWords};
use permit_base::values::{Printable, TextKind};

/// What is taken as a day.
pub fn day_reason() -> &'static str
    ensures { result.now ≡ day_reason }
{
    "--day takes a date, YYYY-MM-DD, from 1970-01-01 to 2243-10-17; example: --day 2026-07-15"
}

/// What is taken as the day from which on entries of a history are printed.
pub fn since_reason() -> &'static str
    ensures { result.now ≡ since_reason }
{
    "--since takes a date, YYYY-MM-DD, from 1970-01-01 to 2243-10-17; example: --since 2026-07-15"
}

/// What is taken as a zone.
pub fn zone_reason() -> &'static str
    ensures { result.now ≡ zone_reason }
{
    "--zone takes a POSIX rule, as the last line of a city's file in /usr/share/zoneinfo has it; example: --zone PST8PDT,M3.2.0,M11.1.0"
}

/// What is taken as a founder's name.
pub fn name_reason() -> &'static str
    ensures { result.now ≡ name_reason }
{
    "--name takes 1 to 2000 bytes of UTF-8 without a control character"
}

/// What is taken as a token, by where the words have it.
pub fn token_reason(words: &TokenWords<'_>) -> &'static str
    ensures { result.now ≡ token_reason words.now }
{
    match words {
        TokenWords::Given(_) => "--token takes 16 to 64 letters and digits of ASCII",
        TokenWords::File(_) => {
            "the first line of --token-file's file is no token: 16 to 64 letters and digits of ASCII"
        }
    }
}

/// What is taken as a request's method.
pub fn method_reason() -> &'static str
    ensures { result.now ≡ method_reason }
{
    "METHOD takes printed ASCII characters without a space"
}

/// What is taken as a request's path.
pub fn path_reason() -> &'static str
    ensures { result.now ≡ path_reason }
{
    "PATH takes printed ASCII characters without a space"
}

/// Where the limits of a request are, whose method and path are words.
pub fn request_reason() -> &'static str
    ensures { result.now ≡ request_reason }
{
    "the request's path or body is refused: a number, a key or a value breaks a limit of docs/HTTP.md"
}

/// What is taken as an address to listen on.
pub fn listen_reason() -> &'static str
    ensures { result.now ≡ listen_reason }
{
    "--listen takes HOST:PORT, an address of this machine on which no other program listens; example: --listen 127.0.0.1:8080"
}

/// What is taken in place of the words for a founder that are refused: of the name where that is no name, else of the token.
///
/// # Examples
///
/// ```
/// let words = TokenWords::File("chief.token");
/// assert_eq!(rt; founder_reason("", &words), name_reason());
/// assert_eq!(rt; founder_reason("Ada", &words), token_reason(&words));
/// ```
pub fn founder_reason(name: &str, token: &TokenWords<'_>) -> &'static str
    ensures { result.now ≡ founder_reason name.now token.now }
{
    if Printable::admits(name.as_bytes()) {
        token_reason(token)
    } else {
        name_reason()
    }
}

/// What is taken in place of the words for a request that are refused as `syntax`: of the method where that is no word, else of the
/// path, and where both are words of the request that they make.
pub fn act_reason(words: &ActWords<'_>) -> &'static str
    ensures { result.now ≡ act_reason words.now }
{
    if !is_word(words.method) {
        method_reason()
    } else if !is_word(words.path) {
        path_reason()
    } else {
        request_reason()
    }
}

/// Why a file can't be read.
#[derive(Clone, Copy, PartialEq, Eq)]
pub enum Unread {
    /// There is nothing at the path.
    NoFile,
    /// The path is a folder.
    Folder,
    /// The program may not read it.
    NoRight,
    /// The path is something else than a file, as a device.
    NotRegular,
    /// The file has a hard link.
    SecondName,
    /// A call of the file failed, or its bytes aren't UTF-8.
    Failed,
}

impl Unread {
    /// The line that says it, without its end.
    pub fn line(self) -> &'static str
        ensures { result.now ≡ unread_reason self }
    {
        match self {
            Unread::NoFile => "no such file or folder",
            Unread::Folder => "the path is a folder",
            Unread::NoRight => "no right to read the file",
            Unread::NotRegular => "the path is no regular file",
            Unread::SecondName => "the file has a second name, a hard link",
            Unread::Failed => "the file can't be read, or isn't UTF-8",
        }
    }
}

/// What is wrong with a line of a history, by the word that says it.
pub fn line_reason(reason: LineReason) -> &'static str
    ensures { result.now ≡ line_reason reason }
{
    match reason {
        LineReason::Long => "that line is no entry of a history: long",
        LineReason::Syntax => "that line is no entry of a history: syntax",
        LineReason::Fields => "that line is no entry of a history: fields",
        LineReason::Form => "that line is no entry of a history: form",
        LineReason::NoFounding => "that line may not follow those before it: no founding",
        LineReason::SecondBeginning => "that line may not follow those before it: second beginning",
        LineReason::SecondFounding => "that line may not follow those before it: second founding",
        LineReason::FirstEdition => "that line may not follow those before it: first edition",
        LineReason::UpgradeDay => "that line may not follow those before it: upgrade day",
        LineReason::SecondUpgrade => "that line may not follow those before it: second upgrade",
        LineReason::Caller => "that line may not follow those before it: caller",
        LineReason::Clock => "that line may not follow those before it: clock",
        LineReason::Record => "that line may not follow those before it: record",
        LineReason::NotAdmitted => "that line may not follow those before it: not admitted",
        LineReason::Number => "that line may not follow those before it: number",
    }
}
