/// There was no memory. It is the one free answer: no contract says when it comes.
pub type NoMemory = std::alloc::AllocError;
