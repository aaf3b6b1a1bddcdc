/// What a call that is refused returns: the value that it was given, and why it was refused.
#[derive(Debug, PartialEq, Eq, Drop)]
pub struct Back<T, E> {
    pub value: T,
    pub fault: E,
}
