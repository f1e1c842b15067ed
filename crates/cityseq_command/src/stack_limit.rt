//! The limit of the stack, in the list of limits that the system writes for a process.
ghost use Rattle.cityseq_command.specs.StackLimit.{IsStackLimit};

/// The name of the stack in such a list.
const STACK: &str = "Max stack size";

/// Returns the soft limit of the stack in bytes from such a list. It is the number that the first
/// word after the name of the stack spells. There is none without that name, or if the word is no
/// number of 64 bits, such as `unlimited`.
pub fn stack_limit_in(limits: &str) -> Option<u64>
    ensures { IsStackLimit limits.now result }
{
    let (_, columns) = limits.split_once(STACK)?;
    columns.split_whitespace().next()?.parse().ok()
}
