/// A step of an expression in postfix order: an operator takes its operands from the steps before it.
#[derive(Clone, Copy)]
pub enum Step {
    /// The value of a variable, by its number from 0.
    Variable(u8),
    /// 0 or 1.
    Constant(bool),
    /// The complement of one operand.
    Not,
    /// 1 where both operands are 1.
    And,
    /// 1 where an operand is 1.
    Or,
    /// 1 where exactly one operand is 1.
    Xor,
}
