/// A service of the example.
#[derive(Clone, Copy, PartialEq, Eq)]
pub enum ExampleService {
    /// How many counts there were, with this one.
    Count,
    /// A greeting, which notes whom it greets.
    Greet,
}
