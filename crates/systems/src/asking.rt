//! What a system answers.
ghost use Rattle.std.specs.Prelude.{◌≡◌, ◌≤◌, Bool, false, ◌&&◌, List, length, Err, IfOk, IfSome, IfNone};
ghost use Rattle.terms.specs.Answering.{Answers};
ghost use Rattle.terms.specs.declared.refusal.Refusal.TheVariants.{NotRising};
ghost use Rattle.sets.specs.Sets.{size, empty, elements};
ghost use Rattle.rules.specs.Reports.{rises};
ghost use Rattle.rules.specs.Systems.{solutions};
ghost use Rattle.upkeep.specs.Changed.{marked};
ghost use Rattle.elimination.specs.Calls.{too_many, KeptIfRefused};
ghost use Rattle.table.specs.OfTable.{meaning_of};
ghost use Rattle.systems.specs.Told.{Found, free_beside, further, spread};
ghost use Rattle.systems.specs.Stated.{Stated, WhereStated, unknowns_of, least_of};

use super::System;
use table::Table;
use terms::refusal::Refusal;

impl System {
    /// The slack, if there is a solution. The least one is then in `least`; without one, what was there stays.
    pub fn solve(&mut self) -> Option<u16>
        ensures few { IfSome result (λ s. s ≤ 256) }
        ensures found { WhereStated self.old (λ M k among odds. Stated self.new M k among odds × Found (solutions M.checks k among odds) result (spread k (least_of self.new)) × IfNone result (least_of self.new ≡ least_of self.old)) }
    {
        if !self.elimination.solve() {
            return None;
        }
        self.elimination.slack()
    }

    /// The unknowns, rising.
    pub fn unknowns(&self) -> &[u16]
        ensures { result.now ≡ unknowns_of self.now }
    {
        &self.unknowns[..self.count]
    }

    /// The solution that `solve` found last: whether it has each unknown, in rising order.
    pub fn least(&self) -> &[bool]
        ensures { result.now ≡ least_of self.now }
    {
        self.elimination.least()
    }

    /// Whether a check is a further one of the code and free: some subset of the unknowns is even on each check added and odd on this one. It is not added.
    pub fn is_free(&mut self, table: &Table, check: u16) -> bool
        ensures { (k among odds : List Bool) → Stated self.old (meaning_of table.now) k among odds → Stated self.new (meaning_of table.now) k among odds × (result ≡ (further (meaning_of table.now) among check && free_beside (meaning_of table.now) k among check)) }
    {
        self.write(table, check);
        self.elimination.is_independent()
    }
}
