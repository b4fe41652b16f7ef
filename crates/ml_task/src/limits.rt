// The limit that a program should keep on the texts of tasks.

/// How many bytes a program should take as the text of a task. `read` itself takes any text.
pub const LONGEST_TASK_TEXT: usize = 2_097_152;
