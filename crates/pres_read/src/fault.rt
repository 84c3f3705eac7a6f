//! Why a text is not read as a predicate.

/// The first token that breaks a rule, by its place, an offset in bytes. At one token the rules come in this order.
#[derive(Clone, Copy, PartialEq, Eq)]
pub enum ReadPred {
    /// No text of the grammar has this token after the tokens before it, or none ends here.
    Syntax(u32),
    /// A name that no variable has.
    UnknownName(u32),
    /// A number outside its limits, or a term that takes its name's coefficient there.
    TooLarge(u32),
    /// More than `PARENTHESIS_LIMIT` open parentheses, or a charge for the signs above `WEIGHT_LIMIT`.
    TooDeep(u32),
    /// The text has this many bytes, more than `TEXT_LIMIT`.
    LongText(u64),
}
