//! The words of expressions.
ghost use Rattle.std.specs.Prelude.{◌≡◌, bytes_eq, find};
ghost use Rattle.std.specs.Option.{option_copied};
ghost use Rattle.ax_expressions.specs.Words.{op_text, op_of, keyword_text, keyword_of};

use crate::expr::Op;

const OPS: [Op; 6] = [
    Op::Equal,
    Op::Unequal,
    Op::Less,
    Op::LessOrEqual,
    Op::Greater,
    Op::GreaterOrEqual,
];

/// Whether these are the octets of the comparison.
fn is_op(op: Op, text: &[u8]) -> bool
    ensures { result ≡ bytes_eq (op_text op) text.now }
{
    let own: &[u8] = match op {
        Op::Equal => b"=",
        Op::Unequal => b"!=",
        Op::Less => b"<",
        Op::LessOrEqual => b"<=",
        Op::Greater => b">",
        Op::GreaterOrEqual => b">=",
    };
    own == text
}

fn first_op<'k>(ops: &'k [Op], text: &[u8]) -> Option<&'k Op>
    ensures { option_copied result ≡ find (λ op. bytes_eq (op_text op) text.now) ops.now }
{
    ops.iter().find(|op| is_op(**op, text))
}

/// The comparison that the text stands for. None comes exactly where it stands for none.
#[tactic(auto, unfolding(crate::specs::Words::op_of))]
pub fn op_in(text: &[u8]) -> Option<Op>
    ensures { result ≡ op_of text.now }
{
    first_op(&OPS, text).copied()
}

/// The first word of an expression.
#[derive(Clone, Copy)]
pub enum FilterKeyword {
    All,
    Any,
    Not,
    Present,
    Is,
}

const KEYWORDS: [FilterKeyword; 5] = [
    FilterKeyword::All,
    FilterKeyword::Any,
    FilterKeyword::Not,
    FilterKeyword::Present,
    FilterKeyword::Is,
];

/// Whether these are the octets of the keyword.
fn is_keyword(word: FilterKeyword, text: &[u8]) -> bool
    ensures { result ≡ bytes_eq (keyword_text word) text.now }
{
    let own: &[u8] = match word {
        FilterKeyword::All => b"all",
        FilterKeyword::Any => b"any",
        FilterKeyword::Not => b"not",
        FilterKeyword::Present => b"present",
        FilterKeyword::Is => b"is",
    };
    own == text
}

fn first_keyword<'k>(words: &'k [FilterKeyword], text: &[u8]) -> Option<&'k FilterKeyword>
    ensures { option_copied result ≡ find (λ word. bytes_eq (keyword_text word) text.now) words.now }
{
    words.iter().find(|word| is_keyword(**word, text))
}

/// The keyword that the text is. None comes exactly where it is none.
#[tactic(auto, unfolding(crate::specs::Words::keyword_of))]
pub fn keyword_in(text: &[u8]) -> Option<FilterKeyword>
    ensures { result ≡ keyword_of text.now }
{
    first_keyword(&KEYWORDS, text).copied()
}
