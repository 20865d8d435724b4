// Reads the lines that `send` reads from standard input, and writes how many bytes and frames each would take, or why it is refused.
#![tactic(auto)]

use send_lines::Task;

fn main(rt: HostRuntime) {
    let mut stdin = rt.stdin();
    send_lines::run(&rt, &mut stdin, Task::Price);
}
