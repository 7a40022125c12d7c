//! Lines of what is no command.

ghost use Rattle.std.specs.Prelude.{◌≡◌, IfOk};
ghost use Rattle.permit_history.specs.Told.{told_on};
ghost use Rattle.permit_recorded.specs.Lines.{whole_line_of};

use permit_base::values::Day;
use permit_history::entry::{Deed, Entry};
use permit_history::write_line;
use std::alloc::{AllocError, Global};

/// The line of what was done on a day, with its LF.
pub(crate) fn whole_line(alloc: Global, day: Day, deed: Deed) -> Result<Vec<u8>, AllocError>
    ensures { IfOk result (λ line. line.items ≡ whole_line_of (told_on day deed)) }
{
    let entry = Entry { day, deed };
    let made = write_line(alloc, &entry);
    // An entry that ends its life here does so once, and not at each of the returns below.
    drop(entry);
    let mut line = made?;
    line.push(b'\n')?;
    Ok(line)
}
