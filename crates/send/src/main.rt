// Reads lines from standard input, `ax25 HEX`, `long HEX`, `generic HEX` or `text TEXT`, and writes the frames of each.
#![tactic(auto)]

use send_lines::Task;

fn main(rt: HostRuntime) {
    let mut stdin = rt.stdin();
    send_lines::run(&rt, &mut stdin, Task::Send);
}
