ghost use Rattle.std.specs.Prelude.{◌≤◌, MatchOption, length};
ghost use Rattle.lead_index.specs.Leads.{IsFirstReducer, IsFree};

use crate::index::{LeadIndex, Place};
use words::occurs_at;

impl LeadIndex {
    /// `first_reducer` by a scan of the list, place after place.
    pub fn scan_reducer(&self, word: &[u8]) -> Option<Place>
        requires { length word.now ≤ 64 }
        ensures { MatchOption result (IsFree self.now word.now)
            (λ place. IsFirstReducer self.now word.now place.at place.element) }
    {
        let leads = self.leads();
        for at in 0..word.len() {
            for lead in leads {
                if occurs_at(lead.word.letters(), word, at) {
                    return Some(Place {
                        at: at as u32,
                        element: lead.element,
                    });
                }
            }
        }
        None
    }
}
