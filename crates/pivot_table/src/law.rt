ghost use Rattle.pivot_table.specs.Law.{IsKept, met_by, put_by};
ghost use Rattle.pivot_table.specs.Shares.{first_share, head_share, joined, spent, tail_share};

use crate::share::{Setting, Share};
use atomic_table::{Join, Play, Split, TableRule};

/// The rule of the table.
pub(crate) struct Law;

impl TableRule<u8, Share, Setting> for Law {
    ghost holds = { IsKept };

    ghost first = { first_share };
}

/// A step that is told the word that it met.
pub(crate) struct Meets;

impl Play<u8, Share> for Meets {
    ghost then = { met_by };
}

/// A store, which is not told the word that it met.
pub(crate) struct Puts;

impl Play<u8, Share> for Puts {
    ghost then = { put_by };
}

/// The first view goes to a new seat.
pub(crate) struct Deal;

impl Split<Share> for Deal {
    ghost left = { tail_share };

    ghost right = { head_share };
}

/// The views of two seats come together.
pub(crate) struct Gather;

impl Join<Share> for Gather {
    ghost both = { joined };

    ghost spent = { spent };
}
