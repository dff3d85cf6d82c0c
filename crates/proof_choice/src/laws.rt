//! What holds of a choice above any servers that are tied to a part of `proof_right`'s machine.

ghost use Rattle.proof_choice.specs.Silent.{SilentChoicesAreWhole, SilentChoicesMove, SilentChoicesRefuse};

/// The laws of a choice among tied servers can be met: among servers that give every request an error at once, as many
/// as are there, what its calls leave is what moves of the machine leave.
pub fn silent_choices_move()
    ensures { SilentChoicesMove }
{}

/// And the choice is tied to the whole of a client: whatever a call leaves of it, with its servers and the view, is what
/// moves of the client leave.
pub fn silent_choices_are_whole()
    ensures { SilentChoicesAreWhole }
{}

/// Where a client has no server, the choice gives each request that error at once, and changes nothing else.
pub fn silent_choices_refuse()
    ensures { SilentChoicesRefuse }
{}
