//! What codes mean: definitions in specs/, and what is proved of them in proofs/.
#![tactic(auto)]

ghost use Rattle.meaning.specs.Codes.{ProductSound, ProductTells, ListedSound, ListedTells, TurnedSound, TurnedTells, ToldCounts};

/// The product code of any seed is sound, and the stated order of its rows names each qubit of a row once.
pub fn product_codes_are_sound()
    ensures sound { ProductSound }
    ensures tells { ProductTells }
{}

/// A listed code within the limits that keeps the law is sound, and its lists name each qubit of a row once.
pub fn listed_codes_are_sound()
    ensures sound { ListedSound }
    ensures tells { ListedTells }
{}

/// A sound code stays sound when its checks and generators are exchanged, and its rows are told as well as before.
pub fn turned_codes_are_sound()
    ensures sound { TurnedSound }
    ensures tells { TurnedTells }
{}

/// A row is told in as many answers as its set has qubits.
pub fn rows_are_told_whole()
    ensures { ToldCounts }
{}
