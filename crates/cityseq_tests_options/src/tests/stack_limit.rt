//! Rows of the limit of the stack, in the list of limits of a process.
use super::calls::check_same;
use cityseq_command::stack_limit::stack_limit_in;

/// The list of a process with 8 MiB, as Linux writes it, up to the line after the stack.
const EIGHT_MIB: &str =
    "Limit                     Soft Limit           Hard Limit           Units     \n\
    Max cpu time              unlimited            unlimited            seconds   \n\
    Max file size             unlimited            unlimited            bytes     \n\
    Max data size             unlimited            unlimited            bytes     \n\
    Max stack size            8388608              unlimited            bytes     \n\
    Max core file size        0                    unlimited            bytes     \n";

#[test]
fn the_soft_limit_is_read(rt: HostRuntime) {
    check_same(&rt, EIGHT_MIB.len(), 6 * 79);
    check_same(&rt, stack_limit_in(EIGHT_MIB), Some(8_388_608));
    // a hard limit comes after it
    check_same(
        &rt,
        stack_limit_in("Max stack size  1048576  8388608  bytes"),
        Some(1_048_576),
    );
    // the list may end anywhere after the number
    check_same(
        &rt,
        stack_limit_in("Max stack size            524288"),
        Some(524_288),
    );
}

#[test]
fn no_number_is_no_limit(rt: HostRuntime) {
    let lists: [&str; 6] = [
        "",
        "Max stack size",
        "Max stack size            unlimited            unlimited            bytes     \n",
        "Max stack size            18446744073709551616 unlimited            bytes     \n",
        "Max stack size            -1                   unlimited            bytes     \n",
        "Max data size             8388608              unlimited            bytes     \n",
    ];
    for list in lists {
        check_same(&rt, stack_limit_in(list), None);
    }
}
