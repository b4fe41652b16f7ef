// The limits that the texts of games keep.

/// How many vertices a game has at most.
pub const MOST_VERTICES: usize = 200_000;

/// How many successors the vertices of a game have at most, all together.
pub const MOST_SUCCESSORS: usize = 2_000_000;

/// The greatest number that may stand in a text: the last even one of 32 bits.
pub const GREATEST_NUMBER: u32 = 4_294_967_294;

/// How many bytes a program should take as the text of a game. `read` itself takes any text.
pub const LONGEST_GAME_TEXT: usize = 67_108_864;

/// How many bytes a program should take as the text of a game with a solution behind it. `read_checked` itself takes any text.
pub const LONGEST_CHECKED_TEXT: usize = 134_217_728;
