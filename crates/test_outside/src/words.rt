// The words of a line.
use std::alloc::Global;
use text_base::OutOfMemory;

/// The words between the spaces of a line. `OutOfMemory` means out of memory.
pub fn words_of(alloc: Global, line: &str) -> Result<Vec<String>, OutOfMemory> {
    let mut words = Vec::new(alloc);
    for word in line.split(' ') {
        if !word.is_empty() {
            words.push(String::from_str(alloc, word)?)?;
        }
    }
    Ok(words)
}
