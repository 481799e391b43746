// Why a line of a document is refused.

/// Why a line of a document is refused. Within a line Word comes before Count, and then tokens count
/// from left to right. Own.
#[derive(Clone, Copy, Debug, Drop, PartialEq, Eq)]
pub enum Cause {
    /// A word is unknown, or stands out of place.
    Word,
    /// The number of tokens is wrong.
    Count,
    /// A token is no number.
    Number,
    /// A name, register, key or side is bad, or the key is none that the line takes.
    Name,
    /// A label, key, side, task register, function, page or cell is given twice.
    Double,
    /// A label that is used stands nowhere: answered where the part ends, or at the line that uses a
    /// label of the text.
    NoLabel,
    /// A number is outside its range, or there is one thing more than a limit allows.
    Limit,
    /// A processor has no task: answered at the line that begins the script.
    Tasks,
    /// The named processor isn't below the declared number.
    NoSuchProcessor,
    /// The event that arrives has no body.
    NoBody,
    /// The command doesn't take this script line.
    Script,
    /// The input ends before its end line: answered at the last line read.
    NoEnd,
    /// A line after the end line is none that is passed over.
    AfterEnd,
    /// The line exceeds 4,096 bytes.
    TooLong,
    /// The line holds byte 8,388,609 of the input.
    TooLarge,
    /// A byte of the line is not 20H to 7EH.
    NotAscii,
}
