/// How the line of a packet shows its time.
#[derive(Clone, Copy, Debug, PartialEq, Eq)]
pub enum Times {
    /// The time since the first packet.
    SinceFirst,
    /// The date and the time of day, in UTC.
    Absolute,
}
