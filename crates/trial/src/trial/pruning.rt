//! Pruning a qubit with a list of generators.
ghost use Rattle.std.specs.Prelude.{◌≡◌};
ghost use Rattle.terms.specs.Answering.{checked};
ghost use Rattle.sets.specs.Sets.{has};
ghost use Rattle.rules.specs.Reports.{product};
ghost use Rattle.rules.specs.Calls.{prune_bars, prune};
ghost use Rattle.table.specs.OfTable.{meaning_of};
ghost use Rattle.upkeep.specs.Fault.{fault};

use super::Trial;
use crate::slip::Slip;
use marking::looking::some_past;
use table::Table;
use terms::refusal::Refusal;

impl Trial<'_> {
    /// Prunes a qubit with a list of 1 to 4 generators, all of whose qubits are erased, and of whose entries an odd number holds it: the qubit is done, unflipped.
    pub fn prune(&mut self, slip: &Slip, qubit: u16, generators: &[u16]) -> Result<(), Refusal>
        ensures does { (result, self.new.state) ≡ prune (meaning_of self.old.table) self.old.state slip.now.number qubit generators.now }
        ensures table { self.new.table ≡ self.old.table }
    {
        self.prune_fault(slip, qubit, generators)?;
        self.finish(qubit, false);
        self.pruned += 1;
        Ok(())
    }

    /// Whether a prune is refused, and why.
    fn prune_fault(&self, slip: &Slip, qubit: u16, generators: &[u16]) -> Result<(), Refusal>
        ensures { result ≡ checked (fault (prune_bars (meaning_of self.now.table) self.now.state slip.now.number qubit generators.now)) }
    {
        if qubit >= self.board.erasures.table.qubits() {
            return Err(Refusal::QubitTooLarge);
        }
        if some_past(self.board.erasures.table.generators(), generators) {
            return Err(Refusal::GeneratorTooLarge);
        }
        if generators.len() == 0 || generators.len() > 4 {
            return Err(Refusal::PruneListLength);
        }
        if self.void {
            return Err(Refusal::NoSolution);
        }
        if self.board.erasures.some_outside(generators) {
            return Err(Refusal::GeneratorNotErased);
        }
        if !is_named_oddly(self.board.erasures.table, generators, qubit) {
            return Err(Refusal::EvenlyNamed);
        }
        if !self.is_shown(slip) {
            return Err(Refusal::WrongSlip);
        }
        Ok(())
    }
}

/// Whether the qubit lies in an odd number of the entries.
fn is_named_oddly(table: &Table, generators: &[u16], qubit: u16) -> bool
    ensures { result ≡ has (product (meaning_of table.now) generators.now) qubit }
{
    let holders = table.generators_at(qubit);
    generators.iter().filter(|g| holders.contains(*g)).count() % 2 == 1
}
