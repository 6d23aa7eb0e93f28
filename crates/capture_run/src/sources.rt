/// The captures that a run reads.
#[derive(Drop)]
pub struct Sources<'a, O> {
    /// The names of the captures. If there is no name, standard input is read.
    pub names: &'a [&'a str],
    /// Opens a capture by its name.
    pub opener: &'a O,
}
