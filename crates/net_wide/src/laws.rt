//! What holds of what a query prints over several switches.

ghost use Rattle.net_wide.specs.NetLaws.{KeysOfOneSwitch, SwitchesDoNotWait, UsesAreTheSwitchs};

/// Switches needn't wait for one another: where every groupby combines, two lists of packets that have the same packets of
/// each switch in the same order are printed as the same text.
pub fn switches_do_not_wait()
    ensures { SwitchesDoNotWait }
{}

/// One store merges the epochs of all switches: a key whose packets are all of one switch has the table rows of that switch
/// alone, for any way of folding.
pub fn keys_of_one_switch()
    ensures { KeysOfOneSwitch }
{}

/// What a groupby takes of one switch's packets alone is what it takes of all packets, where the packet is of that switch.
pub fn uses_are_the_switchs()
    ensures { UsesAreTheSwitchs }
{}
