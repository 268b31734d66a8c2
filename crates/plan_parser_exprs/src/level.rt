/// Where the reading of an expression begins inside an open construct.
#[derive(Clone, Copy)]
pub enum Level {
    /// A whole expression.
    Whole,
    /// What may stand before `;`.
    Low,
    /// What may stand behind `not`.
    Negated,
    /// What may stand behind `::`.
    Listed,
    /// What may stand behind `#N`.
    Operand,
}
