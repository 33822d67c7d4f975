//! What a network represents.

ghost use Rattle.network.specs.Running.{RunsFollowEvents};

/// A network that represents some events represents them followed by those that it makes.
pub fn runs_follow_events()
    ensures { RunsFollowEvents }
{}
