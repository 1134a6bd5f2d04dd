// What a command runs over.
use std::alloc::Global;

/// What a command runs over: the machine's threads, and where its memory comes from.
#[derive(Drop)]
pub struct Host<'a, R> {
    pub threads: &'a R,
    pub alloc: Global,
}
