//! A connection between transactions.

ghost use Rattle.std.specs.Prelude.{◌≡◌};
ghost use Rattle.permit_sql_statements.specs.Frames.{IsIdle};

use sqlite::{Alter, Connection};
use std::marker::Model;

/// A connection that is between transactions. Contracts see it as the connection.
#[derive(Drop)]
pub struct Idle<S: Alter> {
    pub(crate) conn: Connection<S>,
}

impl<S: Alter> Model for Idle<S> {
    ghost use Rattle.sqlite.specs.Held.{Held, held_code};
    ghost use Rattle.permit_sql_statements.specs.Frames.{IsIdle};

    ghost Value = { Held S };

    ghost coded = { held_code S.code };

    ghost view = { λ idle. idle.conn };

    ghost invariant = { λ idle. IsIdle idle.conn };
}

impl<S: Alter> Idle<S> {
    /// The connection, which is between transactions.
    ///
    /// # Examples
    ///
    /// ```
    /// let conn = Connection::open_in_memory(alloc)?;
    /// let idle = Idle::new(conn);
    /// assert!(rt; idle.into_connection().is_autocommit());
    /// ```
    pub fn new(conn: Connection<S>) -> Idle<S>
        requires { IsIdle conn }
        ensures { result ≡ conn }
    {
        Idle { conn }
    }

    /// The connection again.
    pub fn into_connection(self) -> Connection<S>
        ensures same { result ≡ self }
        ensures idle { IsIdle result }
    {
        let Idle { conn } = self;
        conn
    }
}
