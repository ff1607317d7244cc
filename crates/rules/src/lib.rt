//! The rules of trials, and the law about lists of calls: definitions stand in specs/, and each function here promises one theorem about them.
#![tactic(auto)]

pub mod answers;

ghost use Rattle.rules.specs.Law.{Law, LawAfter, LiberalLaw};
ghost use Rattle.rules.specs.Orders.{Ordered};
ghost use Rattle.rules.specs.Companions.{Settles, SolutionsListed, LeastFirst, SlackCounts, ClusterReached, CountsStay, CopiesOut, SlipShown, RefusalsKeep, RunIsCalls, RunEnds, FullRunEmpties, Balance, SmallReports};

/// Whatever is called on a trial, with whatever arguments: an accepted close that says "nothing fits" is right; one that says "solved" has
/// a correction that fits, and exactly 2 ^ (pruned + chosen) errors fit; with nothing chosen each differs from the correction by a product of generators.
pub fn whatever_is_called_a_close_tells_the_truth()
    ensures listed { Law }
    ensures following { LawAfter }
{}

/// The same where solve, sweep and settle may flip any solution of their system, not only the least.
pub fn any_solution_may_be_flipped()
    ensures { LiberalLaw }
{}

/// Whatever is called: when nothing is erased, the newest shelf entry can be settled.
pub fn settle_never_lacks_a_solution()
    ensures { Settles }
{}

/// The solutions of a system are listed, each once: the subsets of the unknowns that put an odd number into exactly the odd checks.
pub fn solutions_are_listed_once()
    ensures { SolutionsListed }
{}

/// The first solution of a system is the least: it lacks the lowest qubit in which it differs from any other.
pub fn the_first_solution_is_the_least()
    ensures { LeastFirst }
{}

/// A system that has a solution has exactly 2 ^ slack of them.
pub fn solutions_are_two_to_the_slack()
    ensures { SlackCounts }
{}

/// A cluster is what is reached from its qubit by touching.
pub fn a_cluster_is_what_touching_reaches()
    ensures { ClusterReached }
{}

/// Whatever is called: peeled, pruned and chosen, with what is still erased or shelved, are together no more than the lost qubits.
pub fn no_more_is_counted_than_was_lost()
    ensures { CountsStay }
{}

/// An accepted copy-out writes a byte a qubit, 1 exactly if it is flipped and 0 otherwise, and leaves the other bytes.
pub fn copy_out_tells_the_flipped_qubits()
    ensures { CopiesOut }
{}

/// The refusals of each call, by their numbers, stand in the stated order.
pub fn refusals_stand_in_order()
    ensures { Ordered }
{}

/// No call is accepted that is shown another slip than the trial's, and no close on a tally that has none out.
pub fn accepted_calls_were_shown_the_slip()
    ensures { SlipShown }
{}

/// A refused call changes nothing, but for a 26 of solve or sweep, which sets void; scratch bytes stay as they were; and a refused close gives the slip back.
pub fn a_refused_call_changes_nothing_else()
    ensures { RefusalsKeep }
{}

/// What a run leaves, some list of calls leaves.
pub fn a_run_is_a_list_of_calls()
    ensures { RunIsCalls }
{}

/// An accepted run leaves the trial void, or nothing more can be done; and with nothing erased the shelf is empty.
pub fn a_run_ends_when_nothing_more_can_be_done()
    ensures { RunEnds }
{}

/// A run with all stages on, with at most 256 lost qubits, leaves nothing erased or shelved unless the trial is void.
pub fn a_full_run_leaves_nothing_over()
    ensures { FullRunEmpties }
{}

/// With one tally, over any openings and closes: opened is the number of accepted openings, is at most 1,000,000, and equals solved + nothing + unfinished + the slips out.
pub fn one_tally_balances()
    ensures { Balance }
{}

/// The ten small reports come out as told.
pub fn ten_small_reports_come_out_as_told()
    ensures { SmallReports }
{}
