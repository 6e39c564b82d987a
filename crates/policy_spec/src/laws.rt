//! What holds of the definitions that the contracts cite, as functions whose contract is the law.
ghost use Rattle.policy_spec.specs.Readers.{Readers, AreReaders};

/// There are readers of durations and trips such as the contracts of this crate speak of: each text is one duration or none, and one
/// trip or none. So what those contracts say of all such readers is said of at least one.
pub fn there_are_readers()
    ensures { (readers : Readers) × AreReaders readers }
{}
