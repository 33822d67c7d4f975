//! Laws of accepted texts over several switches, with no premise but what a user can check.

ghost use Rattle.net_laws.specs.OrderLaws.{AcceptedTellSwitches, NeighboursMayChangePlaces, SwitchOrderIsFree};

use crate::field_keys::keys_are_fields;
use net_wide::switches_do_not_wait;
use query_laws::{accepted_are_valid, accepted_start_as_words};

/// In each accepted text a groupby's key named `switch` is the packet's switch, unless some `map` makes a column of that name;
/// and the state variables start as words.
pub fn accepted_tell_switches()
    ensures { AcceptedTellSwitches }
{
    accepted_start_as_words();
    keys_are_fields();
}

/// Where every groupby of an accepted text combines, two lists of whole packets that have the same packets of each switch in the
/// same order are printed as the same text.
pub fn switch_order_is_free()
    ensures { SwitchOrderIsFree }
{
    accepted_are_valid();
    accepted_tell_switches();
    switches_do_not_wait();
}

/// Two neighbouring packets of different switches can be exchanged: the same text is printed.
pub fn neighbours_may_change_places()
    ensures { NeighboursMayChangePlaces }
{
    switch_order_is_free();
}
