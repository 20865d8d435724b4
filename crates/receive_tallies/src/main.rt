// Reads frames from standard input, one a line, and writes what comes of each.
#![tactic(auto)]

fn main(rt: HostRuntime) {
    let mut stdin = rt.stdin();
    receive_lines::run(&rt, &mut stdin);
}
