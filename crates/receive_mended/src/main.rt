// The same program as `receive`. It is here for its recorded run, whose arguments end with the word `mended`.
#![tactic(auto)]

fn main(rt: HostRuntime) {
    let mut stdin = rt.stdin();
    receive_lines::run(&rt, &mut stdin);
}
