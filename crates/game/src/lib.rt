// The game on a prefix, and what holds of every run of the method on it: theorems only.
#![tactic(auto)]

ghost use Rattle.game.specs.Prefix.{LastLevel};
ghost use Rattle.game.specs.Game.{SameGame};
ghost use Rattle.game.specs.Strategy.{PositionsDecided, StrategiesDecide, OpeningsDecided};
ghost use Rattle.game.specs.Claims.{RefutationsSound, VerdictsRight, OpeningsWin, TurnsCounted, TurnsBounded, TurnsLeft, BoundMet, GrantsSuffice};
ghost use Rattle.game.specs.Claims.{TurnsPaid, PlaysPass, RulesKept, NeverStuck, AlwaysSettles, VerdictsExist, AnyAllows};

// The level past the last block: no variables, and the other player's.
pub fn last_level()
    ensures { LastLevel }
{}

// A list of alternating blocks has the game of its formula.
pub fn same_game()
    ensures { SameGame }
{}

// A position is worth what a player wants exactly if the player has a strategy that wins from it.
pub fn positions_decided()
    ensures { PositionsDecided }
{}

// True exactly if the existential player has a winning strategy, false exactly if the universal player has one.
pub fn strategies_decide()
    ensures { StrategiesDecide }
{}

// An opening is a setting after which the first block's owner has a winning strategy.
pub fn openings_decided()
    ensures { OpeningsDecided }
{}

// A play that a level's test refutes is lost for the level's owner.
pub fn refutations_sound()
    ensures { RefutationsSound }
{}

// A verdict is the formula's value.
pub fn verdicts_right()
    ensures { VerdictsRight }
{}

// After a loss at level 2 the first block's play is an opening.
pub fn openings_win()
    ensures { OpeningsWin }
{}

// The number of turns, from settlements, level and phase.
pub fn turns_counted()
    ensures { TurnsCounted }
{}

// At most 3 S + 2 turns.
pub fn turns_bounded()
    ensures { TurnsBounded }
{}

// At most 3 S + 1 turns while a ticket is out.
pub fn turns_left()
    ensures { TurnsLeft }
{}

// The bound is met, with one block that its owner wins.
pub fn bound_met()
    ensures { BoundMet }
{}

// Steps for 3 S + 2 turns cover a further turn whenever a ticket is out.
pub fn grants_suffice()
    ensures { GrantsSuffice }
{}

// Grants for 3 S + 2 turns leave no turn unpaid.
pub fn turns_paid()
    ensures { TurnsPaid }
{}

// Every part of the play still passes its level's test.
pub fn plays_pass()
    ensures { PlaysPass }
{}

// Every block's play still meets the rule for moves.
pub fn rules_kept()
    ensures { RulesKept }
{}

// While a ticket is out there is a move or a loss.
pub fn never_stuck()
    ensures { NeverStuck }
{}

// After a loss at level 3 or above there is a settlement.
pub fn always_settles()
    ensures { AlwaysSettles }
{}

// Some run reaches a verdict.
pub fn verdicts_exist()
    ensures { VerdictsExist }
{}

// Where no further rule is set, the conditions on rules hold.
pub fn any_allows()
    ensures { AnyAllows }
{}
