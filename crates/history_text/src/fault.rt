/// Why bytes are not read as a log.
#[derive(Clone, Copy, Debug, PartialEq, Eq)]
pub enum LogFault {
    /// The bytes are no log's text. This is the number, from 1, of the first line that has no form that may stand
    /// there; a last line without a newline is such a line. Where all lines are of their forms and the last is
    /// missing, it is the number of the lines plus 1.
    BadLine(u32),
    /// Memory ran out.
    Memory,
}
