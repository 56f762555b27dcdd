// One exchange of docs/QUESTIONS.md: a request read where it stands, the memory lent to its call, and the text of the answer.
// A tool for tests: proved to be safe and to end.
#![tactic(auto)]

pub mod atoms;
pub mod lend;
pub mod request;
pub mod text;
