/// Whose expressions a text has.
#[derive(Clone, Copy)]
pub enum Dialect {
    /// Attributes of Liberty groups.
    Liberty,
    /// Control expressions of UPF commands.
    Control,
}

/// A sign between two operands.
#[derive(Clone, Copy)]
pub(crate) enum Sign {
    /// `^`
    Caret,
    /// `*`
    Star,
    /// `&`
    Ampersand,
    /// Blanks alone.
    Gap,
    /// `+`
    Plus,
    /// `|`
    Bar,
    /// `&&`
    TwoAmpersands,
    /// `||`
    TwoBars,
}

/// A sign whose operand has not ended yet.
#[derive(Clone, Copy)]
pub(crate) enum Mark {
    /// An open parenthesis.
    Open,
    /// A prefix complement.
    Prefix,
    /// A sign, behind its left operand.
    Infix(Sign),
}

/// What was read last.
#[derive(Clone, Copy)]
pub(crate) enum Mode {
    /// An operand has to come.
    Want,
    /// A part of a name, which begins at this byte.
    Name(usize),
    /// A part of a name in quotes, behind the quote: it begins at this byte.
    Quoted(usize),
    /// An operand, and whether blanks stand behind it.
    Have(bool),
    /// An operand and a sign that may be the first half of a longer one.
    Half(Sign),
}

/// A part of an expression in postfix order.
#[derive(Clone, Copy)]
pub(crate) enum Part {
    /// A name or a constant, from a byte to another.
    Plain(usize, usize),
    /// A name in quotes, which are not between the two bytes.
    Quoted(usize, usize),
    /// The complement of one operand.
    Not,
    /// The operation of a sign.
    Infix(Sign),
}
