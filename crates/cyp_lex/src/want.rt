/// What is allowed where a reader stops: a name, or no name.
#[derive(Clone, Copy, Debug, PartialEq, Eq)]
pub enum Want {
    AName,
    NoName,
}
