// Scripts over whole histories.
ghost use Rattle.shelf.specs.History.{FaultsByHistory};

// The same told over whole histories of accesses and renewals: a disk that went away faults as gone until it is renewed,
// and every other access as the first line with its number says.
#[tactic(auto, using(crate::proofs::History::faults_by_history))]
pub fn faults_by_history()
    ensures { FaultsByHistory }
{}
