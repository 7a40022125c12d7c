//! Running the program on words.

use permit_cli::program::run_words;
use permit_cli::stream::Stream;
use std::sync::Wait;
use std::test::Fail;
use std::thread::Threads;

/// The status of a run on words, and what it printed and complained.
pub fn run_owned<R: Threads + Wait + Copy + Drop + Send + 'static>(
    rt: &HostRuntime,
    workers: R,
    words: &[String],
) -> Result<(u8, String, String), Fail> {
    let mut out = Stream::Memory(Vec::new(rt.alloc()));
    let mut err = Stream::Memory(Vec::new(rt.alloc()));
    let status = run_words(rt, workers, words, &mut out, &mut err);
    Ok((status, text(out)?, text(err)?))
}

/// The same of words that others hold.
pub fn run<R: Threads + Wait + Copy + Drop + Send + 'static>(
    rt: &HostRuntime,
    workers: R,
    words: &[&str],
) -> Result<(u8, String, String), Fail> {
    let alloc = rt.alloc();
    let mut owned = Vec::new(alloc);
    for word in words {
        owned.push(String::from_str(alloc, word)?)?;
    }
    run_owned(rt, workers, owned.as_slice())
}

/// What was printed to a stream in memory, which is to be text.
fn text(stream: Stream) -> Result<String, Fail> {
    match stream {
        Stream::Memory(bytes) => Ok(String::from_utf8(bytes).ok().ok_or("text")?),
        _ => Err(Fail::new("a stream in memory")),
    }
}

/// Fails where the status, the output or the errors aren't the wanted ones.
pub fn agrees(
    rt: &HostRuntime,
    given: (u8, &str, &str),
    wanted: (u8, &str, &str),
) -> Result<(), Fail> {
    if given == wanted {
        return Ok(());
    }
    let (status, out, err) = given;
    Err(Fail::new(format!(in rt.alloc(); "status {status}, printed {out}, complained {err}")?))
}
