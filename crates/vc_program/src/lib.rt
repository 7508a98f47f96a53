//! The program of a plan's processes, whatever carries their channels: its states and its moves (`specs/Program`), and laws of all its
//! schedules.
//!
//! A message passes at one moment. A move that is no guard's is no choice: it can be made first, and nothing that can be reached is lost
//! by it. So a search of all schedules may make such a move alone, and still finds each state in which the program is at rest, within as
//! few moves as lead there. This is the ample-set reduction of model checkers with sets of one move (Peled, 1993).
#![tactic(auto)]

ghost use Rattle.vc_program.specs.Choices.{ApartMovesMeet, NoChoicesStay};
ghost use Rattle.vc_program.specs.Search.{QuietStatesAreFound, RanksBoundSchedules, SearchesDecide};
ghost use Rattle.vc_program.specs.SiteSteps.{ChannelsHaveOneInput, ChannelsHaveOneOutput, NothingTakesItAway, SitesHaveOneKind, StepsCommute};

/// Steps of two sites of a process, whose parts side by side keep their variables apart, can be made in either order, and lead to one
/// state.
pub fn steps_commute()
    ensures { StepsCommute }
{}

/// All that one site of a process can do is of one kind, if parts side by side have sites of their own. Only an ALT can do more than one
/// thing, by its guards.
pub fn sites_have_one_kind()
    ensures { SitesHaveOneKind }
{}

/// By lawful use, no other step takes away a step that is no guard's and no input's, and both come to the same in either order.
pub fn nothing_takes_it_away()
    ensures { NothingTakesItAway }
{}

/// By lawful use, one site at a time outputs on a channel.
pub fn channels_have_one_output()
    ensures { ChannelsHaveOneOutput }
{}

/// By lawful use, one site at a time inputs on a channel, has it as a guard or stops it.
pub fn channels_have_one_input()
    ensures { ChannelsHaveOneInput }
{}

/// Moves of the program of an accepted plan that have no site and no channel in common can be made in either order, and lead to one state.
pub fn apart_moves_meet()
    ensures { ApartMovesMeet }
{}

/// No other move of the program of an accepted plan takes away a move that is no guard's, and both come to the same in either order.
pub fn no_choices_stay()
    ensures { NoChoicesStay }
{}

/// A search of the program of an accepted plan finds each state in which the program is at rest, within as few moves as lead there, even if
/// it makes one move alone in each state that has a move which is no choice.
pub fn quiet_states_are_found()
    ensures { QuietStatesAreFound }
{}

/// The program of an accepted plan is never stuck, under any schedule, if such a search finds no state in which it is.
pub fn searches_decide()
    ensures { SearchesDecide }
{}

/// No schedule of the program of an accepted plan has more moves than the rank of its opening state, if ranks fall along the moves that such
/// a search makes.
pub fn ranks_bound_schedules()
    ensures { RanksBoundSchedules }
{}
