//! When a run ends.

ghost use Rattle.cb_system.specs.Dues.{IsCause};

use cb_offers::offers::Offers;
use cb_spec::state::End;

/// The cause for which a run ends in which so many controllers have not ended, so many are at a process that is not resolved
/// yet, and so many events were.
pub fn cause_of(
    living: u32,
    unsettled: u32,
    events: u32,
    limit: u32,
    offers: &Offers,
) -> Option<End>
    ensures { IsCause living unsettled events limit offers.now.rows result }
{
    if living == 0 {
        return Some(End::Ended);
    }
    if events == limit {
        return Some(End::Limit);
    }
    if unsettled == 0 && !offers.can_fire() {
        return Some(End::Quiet);
    }
    None
}
