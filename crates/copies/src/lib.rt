// Settlements: what copies of a core are, why they are right, and what is made of them.
#![tactic(auto)]

ghost use Rattle.copies.specs.Claims.{CopiesJust, CopiesOwn, SettlesJust, SettlesFalls, SettlesOwn};
ghost use Rattle.copies.specs.Claims.{CoreTrue, CoreForces, CoreMarked, CoreSame};
ghost use Rattle.copies.specs.Claims.{SettlementMade, SettlementRight, RootValue, GatesCounted};
ghost use Rattle.copies.specs.Claims.{RestsValued, RestsEarlier, RestsKept};
ghost use Rattle.copies.specs.Worked.{WorkedSettlements, OnesWrong, PolaritiesWrong};

pub fn copies_just()
    ensures { CopiesJust }
{}

pub fn copies_own()
    ensures { CopiesOwn }
{}

pub fn settles_just()
    ensures { SettlesJust }
{}

pub fn settles_falls()
    ensures { SettlesFalls }
{}

pub fn settles_own()
    ensures { SettlesOwn }
{}

pub fn core_true()
    ensures { CoreTrue }
{}

pub fn core_forces()
    ensures { CoreForces }
{}

pub fn core_marked()
    ensures { CoreMarked }
{}

pub fn core_same()
    ensures { CoreSame }
{}

pub fn settlement_made()
    ensures { SettlementMade }
{}

pub fn settlement_right()
    ensures { SettlementRight }
{}

pub fn root_value()
    ensures { RootValue }
{}

pub fn gates_counted()
    ensures { GatesCounted }
{}

pub fn rests_valued()
    ensures { RestsValued }
{}

pub fn rests_earlier()
    ensures { RestsEarlier }
{}

pub fn rests_kept()
    ensures { RestsKept }
{}

pub fn worked_settlements()
    ensures { WorkedSettlements }
{}

pub fn ones_wrong()
    ensures { OnesWrong }
{}

pub fn polarities_wrong()
    ensures { PolaritiesWrong }
{}
