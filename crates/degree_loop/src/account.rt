ghost use Rattle.std.specs.Prelude.{◌≡◌};
ghost use Rattle.ideal_laws.specs.Quantities.{contested_words};

use ideal_laws::{Account, Call};
use symbolic_prep::Closed;
use words::Items;

/// An account of so many rows, with the contested columns by falling word and these calls.
pub fn account_of(closed: Closed, rows: u32, calls: Items<Call>) -> Account
    ensures rows { result.rows ≡ rows }
    ensures columns { result.columns ≡ contested_words closed.columns closed.reducers }
    ensures calls { result.calls ≡ calls }
{
    Account {
        rows,
        columns: closed.into_contested(),
        calls,
    }
}
