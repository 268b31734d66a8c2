//! The limits that refusals name.
ghost use Rattle.std.specs.Prelude.{◌≡◌};
ghost use Rattle.plan_base.specs.Limits.{word_of};

/// What a limit counts or measures, one variant for each word that a refusal can name.
#[derive(Clone, Copy, PartialEq, Eq)]
pub enum Limit {
    /// Functions of a program, at most 64.
    Functions,
    /// Declared services of a program, at most 64.
    Services,
    /// Declared exceptions of a program, at most 64.
    Exceptions,
    /// Parameters of a function or a service, at most 8.
    Parameters,
    /// Arguments of a call, a chunk literal or a chunk, at most 8.
    Arguments,
    /// Parts of a tuple, at most 8, and the number of a part.
    Parts,
    /// Clauses of a `try`, at most 8.
    Clauses,
    /// Items in brackets, at most 63.
    Items,
    /// Expressions of a program, at most 4,096.
    Nodes,
    /// Depth of an expression, at most 64, or of lists and tuples in a value, at most 8.
    Depth,
    /// Depth of a type, at most 8; its word is `type`.
    OfType,
    /// Chunks inside each other, at most 4.
    Nesting,
    /// Bytes of marshalled code, at most 16,000.
    Code,
    /// Weight of a value in bytes, at most 16,384.
    Weight,
    /// Rows of an advert, at most 32.
    Hosts,
    /// Cost of a route in hops, at most 65,535.
    Cost,
}

impl Limit {
    /// The word by which it prints.
    pub fn word(self) -> &'static str
        ensures { result.now ≡ word_of self }
    {
        match self {
            Limit::Functions => "functions",
            Limit::Services => "services",
            Limit::Exceptions => "exceptions",
            Limit::Parameters => "parameters",
            Limit::Arguments => "arguments",
            Limit::Parts => "parts",
            Limit::Clauses => "clauses",
            Limit::Items => "items",
            Limit::Nodes => "nodes",
            Limit::Depth => "depth",
            Limit::OfType => "type",
            Limit::Nesting => "nesting",
            Limit::Code => "code",
            Limit::Weight => "weight",
            Limit::Hosts => "hosts",
            Limit::Cost => "cost",
        }
    }
}
