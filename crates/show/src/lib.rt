// Numbers in a row, as the programs of cases and of figures print them. The answer is whether all of it was written, or what stopped it.
#![tactic(auto)]

use std::fmt::Display;
use std::io;

// Each number after a space.
pub fn numbers<T: Display>(rt: &impl Print, numbers: &[T]) -> io::Result<()> {
    for number in numbers {
        print!(rt; " {number}")?;
    }
    Ok(())
}
