//! The address on which an office is to be served, tested before its database is opened.

ghost use Rattle.std.specs.Prelude.{◌≡◌, IfErr};
ghost use Rattle.permit_subcommands.specs.Failures.{IsUnheard};
ghost use Rattle.permit_cli.specs.Telling.{unencrypted_text, Warns};

use permit_subcommands::failure::Failure;
use permit_subcommands::printing::print_about;
use std::io::{self, Write};
use std::net::{SocketAddr, TcpListener};

/// What is said of an address that isn't this machine's alone.
fn unencrypted_text() -> &'static str
    ensures { result.now ≡ unencrypted_text }
{
    "no loopback address: what is sent, tokens among it, is not encrypted"
}

/// The address of a listener at an address. The listener is closed again.
fn bound(rt: &HostRuntime, address: &str) -> io::Result<SocketAddr> {
    let listener = TcpListener::bind(rt, address)?;
    listener.local_addr()
}

/// Tests whether connections can be taken on an address. Where it is no loopback address, `err` gets a line that says so.
pub(crate) fn try_address<E: Write>(
    rt: &HostRuntime,
    address: &str,
    err: &mut E,
) -> Result<(), Failure>
    ensures fails { IfErr result (IsUnheard address.now) }
    ensures warns { Warns address.now (E.contents err.old) (E.contents err.new) }
{
    match bound(rt, address) {
        Ok(found) if found.ip().is_loopback() => Ok(()),
        Ok(_) => {
            let _ = print_about(err, address, unencrypted_text());
            Ok(())
        }
        Err(_) => Err(Failure::unheard(rt.alloc(), address)),
    }
}
