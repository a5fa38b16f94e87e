//! Facts about connections. The calls do nothing: a caller makes one for its clauses.

ghost use Rattle.std.specs.Prelude.{◌≡◌, false};
ghost use Rattle.sqlite.specs.Held.{state};
ghost use Rattle.br_store.specs.Calls.{IsSettled};

use sqlite::{Alter, Connection};

/// States that outside a transaction a database shows what was last committed.
pub(crate) fn idle_is_settled<S: Alter>(conn: &Connection<S>)
    ensures { conn.now.in_transaction ≡ false → IsSettled (state S.Store conn.now) }
{
    let _idle = conn.is_autocommit();
}
