//! Why a line of texts of blocks is refused.

/// Why a line is refused. Octets and tokens of a line are numbered from 0.
#[derive(Clone, Copy, Debug, PartialEq, Eq)]
pub enum TextFault {
    /// The line has more than 16,777,216 octets, its line feed aside.
    LineTooLong,
    /// That octet fits nowhere, or a string is open where the line ends.
    BadByte { at: u32 },
    /// That token is a brace more than 20 deep.
    TooDeep { token: u32 },
    /// The first token through which no block's text begins, or the count of the tokens where the text is cut short.
    BadToken { token: u32 },
    /// The line is the text of a block whose canonical form has that many octets, more than 65,535, capped at 2^64 - 1.
    TooLong { octets: u64 },
}
