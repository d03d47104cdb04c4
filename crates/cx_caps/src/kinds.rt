//! The kinds of conditions of a clause.

/// What a condition of a clause is about.
#[derive(Clone, Copy, Debug, PartialEq, Eq)]
pub enum ConditionKind {
    Pool,
    Namespace,
    ObjectPrefix,
}
