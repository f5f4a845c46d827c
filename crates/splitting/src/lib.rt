// What the splitter answers: its tree, the cores of refuted branches, and the laws of them.
#![tactic(auto)]

ghost use Rattle.splitting.specs.Claims.{SplitterKeeps, BlameKeeps, EverySettingCovered, NoMoveRefutes};

pub fn splitter_keeps()
    ensures { SplitterKeeps }
{}

pub fn blame_keeps()
    ensures { BlameKeeps }
{}

pub fn every_setting_covered()
    ensures { EverySettingCovered }
{}

pub fn no_move_refutes()
    ensures { NoMoveRefutes }
{}
