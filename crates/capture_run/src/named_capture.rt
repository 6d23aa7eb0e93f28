/// A capture that a run reads.
#[derive(Drop)]
pub(crate) struct NamedCapture<'a> {
    /// How many captures are named. It is 0 if standard input is read without a name.
    pub count: usize,
    /// The place of this capture among the named captures, from 0.
    pub place: usize,
    /// The name that opens the capture.
    pub name: &'a str,
}
