// The start, turns and settlements on a circuit are steps of the abstract run.
#![tactic(auto)]

ghost use Rattle.steps.specs.Steps.{PlaysSet, StartsRight, StartsRooted, QueryRight, MoveRight, LossRight, SettlementSteps, LostRight};
ghost use Rattle.steps.specs.Worked.{WorkedLoss};

pub fn starts_right()
    ensures { StartsRight }
{}

pub fn starts_rooted()
    ensures { StartsRooted }
{}

pub fn query_right()
    ensures { QueryRight }
{}

pub fn move_right()
    ensures { MoveRight }
{}

pub fn loss_right()
    ensures { LossRight }
{}

pub fn settlement_steps()
    ensures { SettlementSteps }
{}

pub fn lost_right()
    ensures { LostRight }
{}

pub fn plays_set()
    ensures { PlaysSet }
{}

pub fn worked_loss()
    ensures { WorkedLoss }
{}
