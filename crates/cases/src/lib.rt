// Answers in the numbers of the file of reference cases, and what is said on standard output where two disagree.
#![tactic(auto)]

pub mod told; // what disagrees
pub mod compared; // answers of the library in the file's numbers

// An answer in the file's numbers. Refusal 0 is acceptance; reached and period are refusal 6's alone.
#[derive(Clone, Copy, Default, PartialEq, Eq)]
pub struct Answer {
    pub refusal: u32,
    pub task: usize,
    pub margin: i32,
    pub cycle: u32,
    pub jobs: u32,
    pub reached: u32,
    pub period: u32,
}
