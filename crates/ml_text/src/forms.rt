// The forms of operands as a program holds them while it reads a text.

/// What a sign is behind an operand.
#[derive(Clone, Copy, PartialEq, Eq)]
pub enum Role {
    /// An operator of this level; a greater level binds tighter.
    Infix(u8),
    /// A sign behind an operand.
    Postfix,
    /// Neither.
    Outside,
}

/// What is read of a form: the whole of it, or a sign of it is to come.
#[derive(Drop)]
pub enum Mode<Tree, Wait> {
    Whole(Tree),
    More(Wait),
}

/// What a sign does to a form.
#[derive(Drop)]
pub enum Turn<Sign, Tree, Wait, Hold> {
    /// The sign is read.
    Read(Mode<Tree, Wait>),
    /// The sign is read, and the form then holds an operand.
    Inner(Hold),
    /// The form holds an operand that begins with this sign.
    Opens(Hold, Sign),
}

/// What is begun and waits for an operand: a form that holds it, or a left operand with its operator.
#[derive(Drop)]
pub enum Frame<Sort, Sign, Tree, Hold> {
    Held(Hold),
    Left(Sort, u8, Sign, Tree),
}
