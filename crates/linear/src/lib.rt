//! Linear algebra over any finite field, proved from the field's laws: rows go into a basis in echelon form, which tells all solutions of a system,
//! the least of them and their number. Definitions stand in specs/, and each function here promises one theorem about them.
#![tactic(auto)]

ghost use Rattle.linear.specs.Theorems.{InsertionKeeps, InsertionGrows, Independence, RowsAbsorbed, AllListed, Counted, LeastSolves, LeastFirst, LeastAlone, SystemTold, Compressed, BitsAreSubsets, ThreeValues, OneNumber, AlongBijection, PairsMultiply};

/// What solves a basis after a row went into it is what solved it before and meets the row; a new row uses up one free column.
pub fn a_row_goes_into_a_basis_without_loss<F>()
    ensures keeps { InsertionKeeps F }
    ensures grows { InsertionGrows F }
{}

/// A row makes a basis grow exactly if some vector is zero on all the basis's rows and not on this one.
pub fn a_row_is_new_if_it_is_independent<F>()
    ensures { Independence F }
{}

/// One row after another: the basis at the end has the solutions of the first that meet every row, or there are none.
pub fn rows_are_absorbed_one_after_another<F>()
    ensures { RowsAbsorbed F }
{}

/// The list of all solutions of a basis has each once, and nothing else.
pub fn all_solutions_are_listed_once<F>()
    ensures { AllListed F }
{}

/// A basis has exactly (number of values) ^ (free columns) solutions.
pub fn the_number_of_solutions_is_a_power<F>()
    ensures { Counted F }
{}

/// The solution with every free unknown zero is the least: it comes before every other, and only it does.
pub fn the_least_solution_comes_before_every_other<F>()
    ensures solves { LeastSolves F }
    ensures first { LeastFirst F }
    ensures alone { LeastAlone F }
{}

/// Of a system as it is stated, elimination tells the first solution and how many there are, or that there is none.
pub fn elimination_answers_for_the_stated_system<F>()
    ensures { SystemTold F }
{}

/// The solutions under a mask are those over the mask's own unknowns, put back among all.
pub fn unknowns_kept_zero_can_be_left_out<F>()
    ensures { Compressed F }
{}

/// What are exactly n things are not exactly m other than n.
pub fn exactly_n_is_one_number<X>()
    ensures { OneNumber X }
{}

/// A bijection carries exactly n things to exactly n things.
pub fn exactly_n_goes_along_a_bijection<X, Y>()
    ensures { AlongBijection X Y }
{}

/// Exactly a things, with exactly b for each, make exactly a * b pairs.
pub fn exactly_a_times_b_pairs<X, Y>()
    ensures { PairsMultiply X Y }
{}

/// Over bits, the solutions are the subsets that put an odd number into exactly the odd checks.
pub fn over_bits_solutions_are_subsets()
    ensures { BitsAreSubsets }
{}

/// The same definitions over a field of three values.
pub fn three_values_are_a_field_too()
    ensures { ThreeValues }
{}
